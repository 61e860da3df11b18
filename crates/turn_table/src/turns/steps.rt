//! The calls that step.
ghost use Rattle.std.specs.Prelude.{◌≡◌, ℕ, ◌<◌, [], MatchResult};
ghost use Rattle.turn_table.specs.Hands.{Has, fresh, spent, noted, took, refused, counted, gave, told, shown_by};
ghost use Rattle.turn_table.specs.Seats.{with_hand};
ghost use Rattle.turn_table.specs.Law.{Meets, MeetsHeld, TakeKeeps, HeldKeeps, CountKeeps, PutKeeps, SplitKeeps, JoinKeeps};
ghost use Rattle.turn_table.specs.Tables.{key_of, slot_count, IsSeatOf};

use super::{Turns, WORDS_APART};
use crate::held::Held;
use crate::law::TurnLaw;
use crate::picks::{Joins, Notes, Puts, Splits};
use crate::plays::{Cut, Pair};
use crate::turn_seat::TurnSeat;
use std::marker::Brand;

impl<V, L: TurnLaw<V>> Turns<V, L> {
    /// Takes the turn of slot i, and the value out of it. It does one compare and exchange, and never waits.
    ///
    /// # Errors
    ///
    /// `Held` where that found another word than 0, which it has: then another seat held the turn. The seat is as before, but for
    /// its note and for the answer, which its hand keeps.
    pub fn take<M: Notes<V, L::Note>>(&self, seat: &mut TurnSeat<V, L>, i: u32) -> Result<V, Held>
        requires here { IsSeatOf self.now seat.old }
        requires slot { (i < slot_count self.now) × ¬ (Has i seat.old.hand.holds) }
        requires keeps { TakeKeeps L.fact L.blank (key_of self.now) seat.old i M.note
            × HeldKeeps L.fact L.blank (key_of self.now) seat.old i M.note }
        ensures seat { MatchResult result (λ v. seat.new ≡ with_hand seat.old (took M.note seat.old.hand i v)) (λ e. (e.slot ≡ i)
            × ¬ (e.seen ≡ 0) × (seat.new ≡ with_hand seat.old (refused M.note seat.old.hand i e.seen))) }
        ensures meets { MatchResult result (λ _. Meets L.fact L.blank (key_of self.now) seat.new)
            (λ e. MeetsHeld L.fact L.blank (key_of self.now) seat.new i e.seen) }
    {
        let shared = &self.table.shared;
        let found = shared.compare_exchange::<Brand>(
            &mut seat.seat,
            i as usize * WORDS_APART,
            0,
            1,
        );
        if found != 0 {
            return Err(Held {
                slot: i,
                seen: found,
            });
        }
        match shared.exchange(&mut seat.seat, i as usize, None) {
            Some(value) => Ok(value),
            None => unreachable!(),
        }
    }

    /// Puts the value into slot i, which the seat holds, and gives its turn back. At that step the slot shows the value, and each
    /// slot that the seat still holds shows what M picks: so several slots change at once.
    pub fn put_back<M: Puts<V, L::Note>>(&self, seat: &mut TurnSeat<V, L>, i: u32, value: V)
        requires here { IsSeatOf self.now seat.old }
        requires slot { Has i seat.old.hand.holds }
        requires keeps { PutKeeps L.fact L.blank (key_of self.now) seat.old i value M.note M.shows }
        ensures seat { seat.new ≡ with_hand seat.old (gave M.note M.shows seat.old.hand i) }
        ensures meets { Meets L.fact L.blank (key_of self.now) seat.new }
    {
        self.give::<M>(seat, i, value, &[]);
    }

    /// Puts the value into slot i as `put_back` does, where the caller has at hand what the other slots are to show: at that step
    /// each slot that `others` names shows the value beside it, and each other one what it showed. M picks the note alone.
    pub fn put_back_showing<M: Puts<V, L::Note>>(
        &self,
        seat: &mut TurnSeat<V, L>,
        i: u32,
        value: V,
        others: &[(u32, &V)],
    )
        requires here { IsSeatOf self.now seat.old }
        requires slot { Has i seat.old.hand.holds }
        requires keeps { PutKeeps L.fact L.blank (key_of self.now) seat.old i value M.note (shown_by (told others.now)) }
        ensures seat { seat.new ≡ with_hand seat.old (gave M.note (shown_by (told others.now)) seat.old.hand i) }
        ensures meets { Meets L.fact L.blank (key_of self.now) seat.new }
    {
        self.give::<M>(seat, i, value, others);
    }

    // What both do, where the caller's proof says what the other slots show; it may read `_others` for that.
    fn give<M: Puts<V, L::Note>>(
        &self,
        seat: &mut TurnSeat<V, L>,
        i: u32,
        value: V,
        _others: &[(u32, &V)],
    )
        ghost shows: { ℕ → V → V }
        requires here { IsSeatOf self.now seat.old }
        requires slot { Has i seat.old.hand.holds }
        requires keeps { PutKeeps L.fact L.blank (key_of self.now) seat.old i value M.note shows }
        ensures seat { seat.new ≡ with_hand seat.old (gave M.note shows seat.old.hand i) }
        ensures meets { Meets L.fact L.blank (key_of self.now) seat.new }
    {
        let shared = &self.table.shared;
        shared.load::<Brand>(&mut seat.seat, i as usize * WORDS_APART);
        match shared.exchange(&mut seat.seat, i as usize, Some(value)) {
            None => {}
            Some(_) => unreachable!(),
        }
        shared.store::<Brand>(&mut seat.seat, i as usize * WORDS_APART, 0);
    }

    /// Counts one further, by one fetch and add, and answers the word found. After 18,446,744,073,709,551,615 comes 0.
    pub fn count<M: Notes<V, L::Note>>(&self, seat: &mut TurnSeat<V, L>) -> u64
        requires here { IsSeatOf self.now seat.old }
        requires keeps { CountKeeps L.fact L.blank (key_of self.now) seat.old M.note }
        ensures seat { seat.new ≡ with_hand seat.old (counted M.note seat.old.hand result) }
        ensures meets { Meets L.fact L.blank (key_of self.now) seat.new }
    {
        let last = self.table.slot_count() * WORDS_APART;
        self.table
            .shared
            .fetch_add::<Brand>(&mut seat.seat, last, 1)
    }

    /// Makes another seat, which holds nothing and was told nothing. It can go to another thread.
    pub fn split_seat<M: Splits<V, L::Note>>(&self, seat: &mut TurnSeat<V, L>) -> TurnSeat<V, L>
        requires here { IsSeatOf self.now seat.old }
        requires keeps { SplitKeeps L.fact L.blank (key_of self.now) seat.old (M.left seat.old.hand) (M.right seat.old.hand) }
        ensures seat { seat.new ≡ with_hand seat.old (noted seat.old.hand (M.left seat.old.hand)) }
        ensures made { IsSeatOf self.now result × (result.hand ≡ fresh (M.right seat.old.hand)) }
    {
        let seat = self.table.shared.split_seat::<Cut<M>>(&mut seat.seat);
        TurnSeat { seat }
    }

    /// Spends a seat that holds nothing. What it was told goes with it, and what it noted goes into the note that M picks.
    pub fn join_seat<M: Joins<V, L::Note>>(&self, into: &mut TurnSeat<V, L>, from: TurnSeat<V, L>)
        requires here { IsSeatOf self.now into.old × IsSeatOf self.now from }
        requires empty { from.hand.holds ≡ [] }
        requires keeps { JoinKeeps L.fact L.blank (key_of self.now) into.old from (M.note into.old.hand from.hand) }
        ensures { into.new ≡ with_hand into.old (noted into.old.hand (M.note into.old.hand from.hand)) }
    {
        let TurnSeat { seat: other } = from;
        self.table
            .shared
            .join_seat::<Pair<L, M>>(&mut into.seat, other);
    }
}
