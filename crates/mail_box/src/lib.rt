//! A mailbox between threads: several senders, each with a list of its own, and one receiver.
//!
//! `Mail` is what every kind of mailbox does, and all that a caller may know of it. `LaneMail` has one queue of
//! its own for each sender; `LinkMail` is one linked queue of all senders, over atomic words. `ShyMail` is another
//! kind whose odd takes are `Busy` while they may be.
#![tactic(auto)]

mod lane;
mod lane_mail;
mod link_mail;
mod mail;
mod receiving;
mod shy_mail;

pub use lane_mail::{LaneHeld, LaneMail, LaneReceiver, LaneSender};
pub use link_mail::{LinkHeld, LinkMail, LinkReceiver, LinkSender};
pub use mail::Mail;
pub use queue_core::{Item, Posted, Took};
pub use receiving::receive;
pub use shy_mail::{ShyMail, ShyReceiver};
