//! Command lines and what is said of them.

use crate::rows::assert_row;
use command_words::Status::{self, Done, Usage};
use command_words::{CreateOrder, Order, RunOrder, StoryOrder, WordsFault, read_words};
use std::alloc::Global;
use std::test::Fail;

/// Words, and the status of what is read, which is `Done` for an order.
type StatusRow = (&'static [&'static str], Status);

#[rattlefmt::skip]
static STATUSES: [StatusRow; 50] = [
    (&["wasmhost"], Usage),
    (&["wasmhost", "open", "a"], Usage),
    (&["wasmhost", "check"], Usage),
    (&["wasmhost", "check", "/dev/null"], Done),
    (&["wasmhost", "check", "a", "b"], Usage),
    (&["wasmhost", "create", "a.disk"], Usage),
    (&["wasmhost", "create", "a.disk", "a.wasm", "b"], Usage),
    (&["wasmhost", "create", "a.disk", "a.wasm", "--pages", "-1"], Usage),
    (&["wasmhost", "create", "a.disk", "a.wasm", "--pages", "0"], Done),
    (&["wasmhost", "create", "a.disk", "a.wasm", "--device"], Done),
    (&["wasmhost", "create", "b.disk", "a.wasm", "--from", "a.disk"], Done),
    (&["wasmhost", "create", "b.disk", "a.wasm", "--from"], Usage),
    (&["wasmhost", "create", "--help"], Done),
    (&["wasmhost", "run"], Usage),
    (&["wasmhost", "run", "-h"], Done),
    (&["wasmhost", "run", "a.disk", "--fuel", "0"], Usage),
    (&["wasmhost", "run", "a.disk", "--every", "0"], Usage),
    (&["wasmhost", "run", "a.disk", "--batch", "0"], Usage),
    (&["wasmhost", "run", "a.disk", "--batch=65536"], Done),
    (&["wasmhost", "run", "a.disk", "--batch=65537"], Usage),
    (&["wasmhost", "run", "a.disk", "--metrics", "a.prom"], Done),
    (&["wasmhost", "run", "a.disk", "--metrics"], Usage),
    (&["wasmhost", "run", "a.disk", "--", "b"], Usage),
    (&["wasmhost", "show", "a.disk"], Done),
    (&["wasmhost", "show"], Usage),
    (&["wasmhost", "inspect", "a.disk"], Done),
    (&["wasmhost", "inspect", "a.disk", "a"], Usage),
    (&["wasmhost", "inspect", "a.disk", "--json"], Done),
    (&["wasmhost", "show", "a.disk", "--json"], Usage),
    (&["wasmhost", "files", "a.disk"], Done),
    (&["wasmhost", "files", "a.disk", "a/b"], Done),
    (&["wasmhost", "files", "a.disk", "--all", "b"], Done),
    (&["wasmhost", "files", "a.disk", "a", "--all", "b"], Usage),
    (&["wasmhost", "files"], Usage),
    (&["wasmhost", "history", "a.disk"], Done),
    (&["wasmhost", "history", "a.disk", "--story"], Done),
    (&["wasmhost", "history"], Usage),
    (&["wasmhost", "upgrade", "a.disk"], Done),
    (&["wasmhost", "upgrade"], Usage),
    (&["wasmhost", "save", "a.disk", "b.disk"], Done),
    (&["wasmhost", "save", "a.disk", "b.disk", "--live"], Done),
    (&["wasmhost", "save", "a.disk"], Usage),
    (&["wasmhost", "story", "a.story", "a.wasm"], Done),
    (&["wasmhost", "story"], Usage),
    (&["wasmhost", "story", "a.story"], Usage),
    (&["wasmhost", "story", "a.story", "a.wasm", "b"], Usage),
    (&["wasmhost", "story", "a.story", "a.wasm", "--pages=a"], Usage),
    (&["wasmhost", "story", "a.story", "a.wasm", "--fuel", "1"], Usage),
    (&["wasmhost", "story", "--help"], Done),
    (&["wasmhost", "--help"], Done),
];

fn status_of(read: &Result<Order<'_>, WordsFault>) -> Status {
    match read {
        Ok(_) => Done,
        Err(fault) => fault.status(),
    }
}

/// Whether the words of a row have its status.
fn has_status(alloc: Global, row: &StatusRow) -> bool {
    let read = read_words(alloc, row.0);
    let status = status_of(&read);
    drop(read);
    status == row.1
}

#[test]
fn tells_orders_mistakes_and_help_apart(rt: HostRuntime) -> Result<(), Fail> {
    for row in &STATUSES {
        assert_row(&rt, has_status(rt.alloc(), row), row);
    }
    Ok(())
}

/// What the words of an order say.
enum Meant {
    /// A file that is to be checked, or a disk that is to be shown.
    Check(&'static str),
    Show(&'static str),
    /// A creation of `a.disk` from `a.wasm`: pages, units of files, sectors of the journal, entries
    /// of the environment, and arguments.
    Create([u64; 3], &'static [&'static str], &'static [&'static str]),
    /// A run of `a.disk`: steps of a slice, slices between two checkpoints and lines of a sync, the
    /// seed, the clock, and whether all sectors are written back.
    Run([u64; 3], Option<&'static str>, Option<u64>, bool),
    /// A story that `a.story` tells of `a.wasm`: pages, units of files and sectors of the journal.
    Story([u64; 3]),
}

/// Words, and what they say.
type MeantRow = (&'static [&'static str], Meant);

#[rattlefmt::skip]
static MEANT: [MeantRow; 15] = [
    (&["wasmhost", "check", "/dev/null"], Meant::Check("/dev/null")),
    (&["wasmhost", "show", "a.disk"], Meant::Show("a.disk")),
    (&["wasmhost", "create", "a.disk", "a.wasm"], Meant::Create([16, 16, 256], &[], &[])),
    (&["wasmhost", "create", "a.disk", "a.wasm", "--pages", "1", "--files=2", "--journal", "64"],
        Meant::Create([1, 2, 64], &[], &[])),
    (&["wasmhost", "create", "--env", "a=b", "a.disk", "--env", "c=", "a.wasm"],
        Meant::Create([16, 16, 256], &["a=b", "c="], &[])),
    (&["wasmhost", "create", "a.disk", "a.wasm", "--", "--pages", "--", "1"],
        Meant::Create([16, 16, 256], &[], &["--pages", "--", "1"])),
    (&["wasmhost", "run", "a.disk"], Meant::Run([100_000, 100, 1], None, None, false)),
    (&["wasmhost", "run", "a.disk", "--fuel", "1", "--every=1"],
        Meant::Run([1, 1, 1], None, None, false)),
    (&["wasmhost", "run", "--batch=64", "a.disk"],
        Meant::Run([100_000, 100, 64], None, None, false)),
    (&["wasmhost", "run", "--seed", "0A", "--clock", "0", "a.disk"],
        Meant::Run([100_000, 100, 1], Some("0A"), Some(0), false)),
    (&["wasmhost", "run", "--rewrite", "--", "a.disk"],
        Meant::Run([100_000, 100, 1], None, None, true)),
    (&["wasmhost", "story", "a.story", "a.wasm"], Meant::Story([1, 1, 64])),
    (&["wasmhost", "story", "--pages", "2", "a.story", "--files=3", "a.wasm", "--journal", "65"],
        Meant::Story([2, 3, 65])),
    (&["wasmhost", "story", "a.story", "a.wasm", "--pages=18446744073709551615", "--files=0"],
        Meant::Story([u64::MAX, 0, 64])),
    (&["wasmhost", "story", "--files", "2", "--", "a.story", "a.wasm"], Meant::Story([1, 2, 64])),
];

fn is_creation(order: &CreateOrder<'_>, meant: &Meant) -> bool {
    match meant {
        Meant::Create(sizes, environment, arguments) => {
            order.disk == "a.disk"
                && order.module == "a.wasm"
                && [order.pages, order.files, order.journal] == *sizes
                && order.environment.as_slice() == *environment
                && order.arguments.as_slice() == *arguments
        }
        _ => false,
    }
}

/// The steps of a slice, the slices between two checkpoints, and the lines for a sync.
fn numbers_of(order: &RunOrder<'_>) -> [u64; 3] {
    [order.fuel.get(), order.every.get(), order.batch.get()]
}

fn is_run(order: &RunOrder<'_>, meant: &Meant) -> bool {
    match meant {
        Meant::Run(numbers, seed, clock, rewrites) => {
            order.disk == "a.disk"
                && numbers_of(order) == *numbers
                && order.seed == *seed
                && order.clock == *clock
                && order.rewrites == *rewrites
        }
        _ => false,
    }
}

fn is_story(order: &StoryOrder<'_>, meant: &Meant) -> bool {
    match meant {
        Meant::Story(sizes) => {
            order.script == "a.story"
                && order.module == "a.wasm"
                && [order.pages, order.files, order.journal] == *sizes
        }
        _ => false,
    }
}

fn is_meant(order: &Order<'_>, meant: &Meant) -> bool {
    match order {
        Order::Check(order) => matches!(meant, Meant::Check(wanted) if order.path == *wanted),
        Order::Show { path, .. } => matches!(meant, Meant::Show(wanted) if path == wanted),
        Order::Create(order) => is_creation(order, meant),
        Order::Run(order) => is_run(order, meant),
        Order::Story(order) => is_story(order, meant),
        _ => false,
    }
}

/// Whether the words of a row say what they should.
fn is_meant_so(alloc: Global, row: &MeantRow) -> Result<bool, WordsFault> {
    let order = read_words(alloc, row.0)?;
    let is_so = is_meant(&order, &row.1);
    drop(order);
    Ok(is_so)
}

/// `scripts/runs/refused-allocations` refuses each allocation in turn, and then this ends out of
/// memory.
#[test]
fn reads_orders(rt: HostRuntime) -> Result<(), Fail> {
    for row in &MEANT {
        assert_row(&rt, is_meant_so(rt.alloc(), row)?, &row.0);
    }
    Ok(())
}
