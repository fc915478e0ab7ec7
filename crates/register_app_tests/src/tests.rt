//! What the program answers where a stream breaks or is slow, or memory is refused, and what it touches.
//! `check/answers` has what it answers to arguments, texts and files.

mod breaking;
mod fits;
pub mod helpers;
pub mod pages;
mod streams;
mod terminal;
