//! What is known of a module that isn't accepted, beside its fault.

mod floats;
mod imports;
mod listing;
mod telling;

pub(crate) use listing::print_list;
pub(crate) use telling::{first_pages, print_more, print_unlisted};
