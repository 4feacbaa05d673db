//! What a journal notes of a controller's links beside the book: of each channel what its station was told, of each call where its
//! mobile is. A note is octets: elements by identifier, one after the other, as in messages. An element that isn't known is passed
//! over, so that an older reader reads what a newer writer wrote.
#![tactic(auto)]

mod calls;
mod channels;
mod fault;
mod laws;
mod table;

pub use calls::{CallNote, append_call, read_call};
pub use channels::{BarNote, ChannelNote, append_channel, read_channel};
pub use fault::StateFault;
pub use laws::{calls_are_read_back, channels_are_read_back, reading_is_unique};
