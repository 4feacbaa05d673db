//! Laws of channels: their clauses are the statements, and their bodies are empty.
ghost use Rattle.channel_fsm.specs.Keys.{SameChannelsAreEqual, OrderIsTotal, TiedChannelsAreOne};
ghost use Rattle.channel_fsm.specs.Slots.{NoneInWay, InWayConflicts};
ghost use Rattle.channel_fsm.specs.Table.{NextIsTheTable};

/// [`next`](crate::next) answers a state exactly if a row of the table leads to it.
pub fn next_is_the_table()
    ensures law { NextIsTheTable }
{}

/// `==` of two channels says whether they are equal: cell, TRX, timeslot and the part of it.
pub fn same_channels_are_equal()
    ensures law { SameChannelsAreEqual }
{}

/// The order of channels is total, and channels that tie in it are one.
pub fn channels_are_ordered()
    ensures total { OrderIsTotal }
    ensures exact { TiedChannelsAreOne }
{}

/// Nothing is in the way of a channel exactly if neither it nor a channel that conflicts with it is in use. A channel that
/// is in the way is in use, and is the channel itself or conflicts with it.
pub fn in_the_way_is_what_conflicts()
    ensures none { NoneInWay }
    ensures there { InWayConflicts }
{}
