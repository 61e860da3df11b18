ghost use Rattle.thread_frames.specs.Laws.{ActionsAreActed, DeliveriesHandOver, ForksAreForked, JoinsAreJoined, NextActionsStand};

/// The action of the list that a thread does next is the next one of the part that it is.
pub fn next_actions_stand()
    ensures { NextActionsStand }
{}

/// A thread that acted alone has done one action more, with the same children.
pub fn actions_are_acted()
    ensures { ActionsAreActed }
{}

/// A thread that forked has one child more, the newest.
pub fn forks_are_forked()
    ensures { ForksAreForked }
{}

/// A thread that joined has its newest child no more.
pub fn joins_are_joined()
    ensures { JoinsAreJoined }
{}

/// A result that a thread waits for is handed over to one of its children.
pub fn deliveries_hand_over()
    ensures { DeliveriesHandOver }
{}
