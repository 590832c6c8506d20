//! Whether two sectors of 512 bytes are the same, compared a lane of eight bytes at a time (this
//! project's own).
//!
//! # Example
//!
//! ```text
//! if !same(&held, &wanted) {
//!     disk.write(place, &wanted)?;
//! }
//! ```
//!
//! # Promises
//!
//! - `same` is true exactly where the two sectors have the same bytes. Where they differ isn't
//!   told.
//!
//! # Definitions to read
//!
//! None, and there is no `specs/` folder. The one contract speaks of the two lists of bytes alone.
//!
//! # Who may touch what
//!
//! Only this crate knows in which lanes bytes are compared. `snapshot` uses it, so that a sector
//! that holds the right bytes already isn't written again. The crate uses no other one of this
//! repository, takes no memory, and has no errors.
//!
//! # Choices
//!
//! - Every lane is looked at, and a processor without wider lanes can do no better. The cost is in
//!   `docs/PERFORMANCE.md`. Less would need `memcmp` of C or a newer processor, for neither of
//!   which the kit has words.
#![tactic(auto)]

ghost use Rattle.std.specs.Prelude.{◌≡◌, ◌↔◌, IsTrue};

/// Whether all bytes of two sectors are equal.
pub fn same(a: &[u8; 512], b: &[u8; 512]) -> bool
    ensures { IsTrue result ↔ (a.now ≡ b.now) }
{
    let (a_lanes, _) = a.as_chunks::<8>();
    let (b_lanes, _) = b.as_chunks::<8>();
    let mut differing = 0;
    for (x, y) in a_lanes.iter().zip(b_lanes) {
        differing |= u64::from_ne_bytes(*x) ^ u64::from_ne_bytes(*y);
    }
    differing == 0
}
