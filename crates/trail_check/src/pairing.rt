ghost use Rattle.std.specs.Prelude.{◌≡◌, IfOk};

use dag_order::Kind;
use std::alloc::{AllocError, Global};

/// What is known of the partners after the first places of a list.
#[derive(Drop)]
pub(crate) struct Pairing {
    /// The partner of each place, if it was found.
    pub(crate) partners: Vec<Option<u32>>,
    /// The Forks whose child has not ended, the newest last.
    pub(crate) running: Vec<u32>,
    /// The Ends of children that have not been joined, the newest last.
    pub(crate) ended: Vec<u32>,
}

impl Pairing {
    ghost use Rattle.trail_check.specs.Pairing.{no_pairs, after, ArePassed};
    ghost use Rattle.trail_check.specs.Passing.{pairs_of};
    ghost use Rattle.dag_order.specs.declared.kind.Kind.TheVariants.{End, Join};

    /// Knows nothing before the first place, and has room for the partners of so many places.
    pub(crate) fn new(alloc: Global, places: usize) -> Result<Pairing, AllocError>
        ensures { IfOk result (λ pairing. pairs_of pairing ≡ no_pairs) }
    {
        Ok(Pairing {
            partners: Vec::with_capacity(alloc, places)?,
            running: Vec::new(alloc),
            ended: Vec::new(alloc),
        })
    }

    /// Takes the next place, whose action is of this kind.
    pub(crate) fn pass(&mut self, place: u32, kind: Kind) -> Result<(), AllocError>
        requires { ArePassed (pairs_of self.old) }
        ensures { IfOk result (λ _. pairs_of self.new ≡ after place kind (pairs_of self.old)) }
    {
        match kind {
            Kind::Fork => {
                self.running.push(place)?;
                self.partners.push(None)?;
                Ok(())
            }
            Kind::Join => self.pass_join(place),
            Kind::End => self.pass_end(place),
            Kind::Alloc | Kind::Release | Kind::Dummy | Kind::Fault => {
                self.partners.push(None)?;
                Ok(())
            }
        }
    }

    // Makes this End the partner of the newest Fork whose child has not ended. The root has no Fork.
    fn pass_end(&mut self, place: u32) -> Result<(), AllocError>
        requires { ArePassed (pairs_of self.old) }
        ensures { IfOk result (λ _. pairs_of self.new ≡ after place End (pairs_of self.old)) }
    {
        if let Some(fork) = self.running.pop() {
            self.partners[fork as usize] = Some(place);
            self.ended.push(place)?;
        }
        self.partners.push(None)?;
        Ok(())
    }

    // Makes this Join and the newest End that has not been joined the partners of each other.
    fn pass_join(&mut self, place: u32) -> Result<(), AllocError>
        requires { ArePassed (pairs_of self.old) }
        ensures { IfOk result (λ _. pairs_of self.new ≡ after place Join (pairs_of self.old)) }
    {
        let end = self.ended.pop();
        if let Some(end) = end {
            self.partners[end as usize] = Some(place);
        }
        self.partners.push(end)?;
        Ok(())
    }
}
