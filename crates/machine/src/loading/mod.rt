//! A machine that is put together from parts: frames with their slots, globals, memory, and the
//! calls to come. Parts are taken only where they show some configuration.

mod bodies;
pub mod fault;
mod fits;
mod frames;
mod limits;
pub mod loading;
mod parts;
mod typed_words;

pub use fault::LoadFault;
pub use loading::Loading;
