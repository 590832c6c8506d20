//! The calls.

ghost use Rattle.std.specs.Prelude.{◌≡◌, ◌≢◌, IfSome, IfNone};

use wasm_syntax::ValueType;
use wasm_syntax::ValueType::{I32, I64};

/// The module that a guest imports the calls from.
pub const MODULE_NAME: &str = "wasi_snapshot_preview1";

/// The calls of `wasi_snapshot_preview1` that a guest may import.
#[derive(Clone, Copy, Debug, PartialEq, Eq)]
pub enum Call {
    ArgsGet,
    ArgsSizesGet,
    EnvironGet,
    EnvironSizesGet,
    ClockResGet,
    ClockTimeGet,
    FdClose,
    FdDatasync,
    FdFdstatGet,
    FdFdstatSetFlags,
    FdFilestatGet,
    FdFilestatSetSize,
    FdPread,
    FdPrestatGet,
    FdPrestatDirName,
    FdPwrite,
    FdRead,
    FdReaddir,
    FdSeek,
    FdSync,
    FdTell,
    FdWrite,
    PathCreateDirectory,
    PathFilestatGet,
    PathOpen,
    PathRemoveDirectory,
    PathRename,
    PathUnlinkFile,
    ProcExit,
    SchedYield,
    RandomGet,
}

impl Call {
    ghost use Rattle.wasi_abi.specs.declared.call.Call.{Call};
    ghost use Rattle.wasi_abi.specs.rules.Calls.{name_of, parameters_of, result_types};

    /// Every call.
    pub const ALL: [Call; 31] = [
        Call::ArgsGet,
        Call::ArgsSizesGet,
        Call::EnvironGet,
        Call::EnvironSizesGet,
        Call::ClockResGet,
        Call::ClockTimeGet,
        Call::FdClose,
        Call::FdDatasync,
        Call::FdFdstatGet,
        Call::FdFdstatSetFlags,
        Call::FdFilestatGet,
        Call::FdFilestatSetSize,
        Call::FdPread,
        Call::FdPrestatGet,
        Call::FdPrestatDirName,
        Call::FdPwrite,
        Call::FdRead,
        Call::FdReaddir,
        Call::FdSeek,
        Call::FdSync,
        Call::FdTell,
        Call::FdWrite,
        Call::PathCreateDirectory,
        Call::PathFilestatGet,
        Call::PathOpen,
        Call::PathRemoveDirectory,
        Call::PathRename,
        Call::PathUnlinkFile,
        Call::ProcExit,
        Call::SchedYield,
        Call::RandomGet,
    ];

    /// The call with this name.
    pub fn named(name: &str) -> Option<Call>
        ensures found { IfSome result (λ c. name.now ≡ name_of c) }
        ensures none { IfNone result ((c : Call) → name.now ≢ name_of c) }
    {
        for call in Call::ALL {
            if call.name() == name {
                return Some(call);
            }
        }
        None
    }

    /// The name that a guest imports it by.
    pub fn name(self) -> &'static str
        ensures { result.now ≡ name_of self }
    {
        match self {
            Call::ArgsGet => "args_get",
            Call::ArgsSizesGet => "args_sizes_get",
            Call::EnvironGet => "environ_get",
            Call::EnvironSizesGet => "environ_sizes_get",
            Call::ClockResGet => "clock_res_get",
            Call::ClockTimeGet => "clock_time_get",
            Call::FdClose => "fd_close",
            Call::FdDatasync => "fd_datasync",
            Call::FdFdstatGet => "fd_fdstat_get",
            Call::FdFdstatSetFlags => "fd_fdstat_set_flags",
            Call::FdFilestatGet => "fd_filestat_get",
            Call::FdFilestatSetSize => "fd_filestat_set_size",
            Call::FdPread => "fd_pread",
            Call::FdPrestatGet => "fd_prestat_get",
            Call::FdPrestatDirName => "fd_prestat_dir_name",
            Call::FdPwrite => "fd_pwrite",
            Call::FdRead => "fd_read",
            Call::FdReaddir => "fd_readdir",
            Call::FdSeek => "fd_seek",
            Call::FdSync => "fd_sync",
            Call::FdTell => "fd_tell",
            Call::FdWrite => "fd_write",
            Call::PathCreateDirectory => "path_create_directory",
            Call::PathFilestatGet => "path_filestat_get",
            Call::PathOpen => "path_open",
            Call::PathRemoveDirectory => "path_remove_directory",
            Call::PathRename => "path_rename",
            Call::PathUnlinkFile => "path_unlink_file",
            Call::ProcExit => "proc_exit",
            Call::SchedYield => "sched_yield",
            Call::RandomGet => "random_get",
        }
    }

    /// The types of its parameters, the first one first.
    pub fn parameters(self) -> &'static [ValueType]
        ensures { result.now ≡ parameters_of self }
    {
        match self {
            Call::ArgsGet
            | Call::ArgsSizesGet
            | Call::EnvironGet
            | Call::EnvironSizesGet
            | Call::ClockResGet
            | Call::FdFdstatGet
            | Call::FdFdstatSetFlags
            | Call::FdFilestatGet
            | Call::FdPrestatGet
            | Call::FdTell
            | Call::RandomGet => &[I32, I32],
            Call::ClockTimeGet => &[I32, I64, I32],
            Call::FdClose | Call::FdDatasync | Call::FdSync | Call::ProcExit => &[I32],
            Call::FdFilestatSetSize => &[I32, I64],
            Call::FdPread | Call::FdPwrite | Call::FdReaddir => &[I32, I32, I32, I64, I32],
            Call::FdPrestatDirName
            | Call::PathCreateDirectory
            | Call::PathRemoveDirectory
            | Call::PathUnlinkFile => &[I32, I32, I32],
            Call::FdRead | Call::FdWrite => &[I32, I32, I32, I32],
            Call::FdSeek => &[I32, I64, I32, I32],
            Call::PathFilestatGet => &[I32, I32, I32, I32, I32],
            Call::PathOpen => &[I32, I32, I32, I32, I32, I64, I64, I32, I32],
            Call::PathRename => &[I32, I32, I32, I32, I32, I32],
            Call::SchedYield => &[],
        }
    }

    /// The types of its results.
    pub fn results(self) -> &'static [ValueType]
        ensures { result.now ≡ result_types self }
    {
        match self {
            Call::ProcExit => &[],
            _ => &[I32],
        }
    }
}
