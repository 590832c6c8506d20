//! The arguments of calls as numbers of their types.

ghost use Rattle.std.specs.Prelude.{◌≡◌, ◌∷◌, []};
ghost use Rattle.wasm_syntax.specs.declared.types.ValueType.TheVariants.{I32, I64};
ghost use Rattle.wasi_calls.specs.rules.Calls.{AreArguments};

use crate::clocks::TimeArguments;
use crate::listing::ListArguments;
use crate::moves::{MoveArguments, PlacedArguments};
use crate::offsets::SeekArguments;
use crate::opening::{AskedMode, OpenArguments};
use crate::paths::entries::PathFilestatArguments;
use crate::renaming::RenameArguments;

/// One i32.
pub fn one(arguments: &[u64]) -> u32
    requires { AreArguments (I32 ∷ []) arguments.now }
    ensures { arguments.now ≡ result ∷ [] }
{
    arguments[0] as u32
}

/// Two of them.
pub fn two(arguments: &[u64]) -> (u32, u32)
    requires { AreArguments (I32 ∷ I32 ∷ []) arguments.now }
    ensures { arguments.now ≡ result.0 ∷ result.1 ∷ [] }
{
    (arguments[0] as u32, arguments[1] as u32)
}

/// Three of them.
pub fn three(arguments: &[u64]) -> (u32, u32, u32)
    requires { AreArguments (I32 ∷ I32 ∷ I32 ∷ []) arguments.now }
    ensures { arguments.now ≡ result.0 ∷ result.1 ∷ result.2 ∷ [] }
{
    (
        arguments[0] as u32,
        arguments[1] as u32,
        arguments[2] as u32,
    )
}

/// An i32 and an i64.
pub fn one_and_long(arguments: &[u64]) -> (u32, u64)
    requires { AreArguments (I32 ∷ I64 ∷ []) arguments.now }
    ensures { arguments.now ≡ result.0 ∷ result.1 ∷ [] }
{
    (arguments[0] as u32, arguments[1])
}

/// Those of `clock_time_get`.
pub fn of_time(arguments: &[u64]) -> TimeArguments
    requires { AreArguments (I32 ∷ I64 ∷ I32 ∷ []) arguments.now }
    ensures { arguments.now ≡ result.clock ∷ result.precision ∷ result.ret ∷ [] }
{
    TimeArguments {
        clock: arguments[0] as u32,
        precision: arguments[1],
        ret: arguments[2] as u32,
    }
}

/// Those of `fd_seek`.
pub fn of_seek(arguments: &[u64]) -> SeekArguments
    requires { AreArguments (I32 ∷ I64 ∷ I32 ∷ I32 ∷ []) arguments.now }
    ensures { arguments.now ≡ result.fd ∷ result.delta ∷ result.whence ∷ result.ret ∷ [] }
{
    SeekArguments {
        fd: arguments[0] as u32,
        delta: arguments[1],
        whence: arguments[2] as u32,
        ret: arguments[3] as u32,
    }
}

/// Those of `fd_read` and `fd_write`.
pub fn of_move(arguments: &[u64]) -> MoveArguments
    requires { AreArguments (I32 ∷ I32 ∷ I32 ∷ I32 ∷ []) arguments.now }
    ensures { arguments.now ≡ result.fd ∷ result.iovecs ∷ result.count ∷ result.ret ∷ [] }
{
    MoveArguments {
        fd: arguments[0] as u32,
        iovecs: arguments[1] as u32,
        count: arguments[2] as u32,
        ret: arguments[3] as u32,
    }
}

/// Those of `fd_pread` and `fd_pwrite`.
pub fn of_placed_move(arguments: &[u64]) -> PlacedArguments
    requires { AreArguments (I32 ∷ I32 ∷ I32 ∷ I64 ∷ I32 ∷ []) arguments.now }
    ensures { arguments.now
        ≡ result.fd ∷ result.iovecs ∷ result.count ∷ result.offset ∷ result.ret ∷ [] }
{
    PlacedArguments {
        fd: arguments[0] as u32,
        iovecs: arguments[1] as u32,
        count: arguments[2] as u32,
        offset: arguments[3],
        ret: arguments[4] as u32,
    }
}

/// Those of `fd_readdir`.
pub fn of_list(arguments: &[u64]) -> ListArguments
    requires { AreArguments (I32 ∷ I32 ∷ I32 ∷ I64 ∷ I32 ∷ []) arguments.now }
    ensures { arguments.now
        ≡ result.fd ∷ result.buffer ∷ result.len ∷ result.cookie ∷ result.ret ∷ [] }
{
    ListArguments {
        fd: arguments[0] as u32,
        buffer: arguments[1] as u32,
        len: arguments[2] as u32,
        cookie: arguments[3],
        ret: arguments[4] as u32,
    }
}

/// Those of `path_filestat_get`.
pub fn of_path_filestat(arguments: &[u64]) -> PathFilestatArguments
    requires { AreArguments (I32 ∷ I32 ∷ I32 ∷ I32 ∷ I32 ∷ []) arguments.now }
    ensures { arguments.now ≡ result.fd ∷ result.flags ∷ result.path ∷ result.len ∷ result.ret
        ∷ [] }
{
    PathFilestatArguments {
        fd: arguments[0] as u32,
        flags: arguments[1] as u32,
        path: arguments[2] as u32,
        len: arguments[3] as u32,
        ret: arguments[4] as u32,
    }
}

/// Those of `path_rename`.
pub fn of_rename(arguments: &[u64]) -> RenameArguments
    requires { AreArguments (I32 ∷ I32 ∷ I32 ∷ I32 ∷ I32 ∷ I32 ∷ []) arguments.now }
    ensures { arguments.now ≡ result.old_fd ∷ result.old_path ∷ result.old_len
        ∷ result.new_fd ∷ result.new_path ∷ result.new_len ∷ [] }
{
    RenameArguments {
        old_fd: arguments[0] as u32,
        old_path: arguments[1] as u32,
        old_len: arguments[2] as u32,
        new_fd: arguments[3] as u32,
        new_path: arguments[4] as u32,
        new_len: arguments[5] as u32,
    }
}

/// Those of `path_open`.
pub fn of_open(arguments: &[u64]) -> OpenArguments
    requires { AreArguments (I32 ∷ I32 ∷ I32 ∷ I32 ∷ I32 ∷ I64 ∷ I64 ∷ I32 ∷ I32 ∷ [])
        arguments.now }
    ensures { arguments.now ≡ result.fd ∷ result.dirflags ∷ result.path ∷ result.len
        ∷ result.mode.oflags ∷ result.mode.base ∷ result.mode.inheriting
        ∷ result.mode.fdflags ∷ result.ret ∷ [] }
{
    OpenArguments {
        fd: arguments[0] as u32,
        dirflags: arguments[1] as u32,
        path: arguments[2] as u32,
        len: arguments[3] as u32,
        mode: AskedMode {
            oflags: arguments[4] as u32,
            base: arguments[5],
            inheriting: arguments[6],
            fdflags: arguments[7] as u32,
        },
        ret: arguments[8] as u32,
    }
}
