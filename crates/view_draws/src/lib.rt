//! Replies that are the bytes of a view behind a head, drawn by parts from a pinned site.
//!
//! A `ViewDraw` knows which view it draws, how many bytes the view has, and how far it has come. It has one chunk of the view at a
//! time, in a buffer of its own, so that it takes no memory beside its head, however long the view is.
#![tactic(auto)]

mod drawing;
mod progress;
mod source;
mod steps;
mod view_draw;

pub use view_draw::ViewDraw;
