//! Files of a host.

ghost use Rattle.std.specs.Prelude.{◌≡◌, ◌+◌, ◌<◌, ◌≤◌, ◌^◌, false, length, OnOk, OnErr};
ghost use Rattle.wasi_abi.specs.rules.Layouts.{filestat_layout};
ghost use Rattle.file_tree.specs.rules.Bytes.{resized};
ghost use Rattle.file_tree.specs.rules.Files.{is_directory, bytes_of_node, used, with_file_bytes};
ghost use Rattle.file_tree.specs.declared.limits.TheConstants.{FILE_BYTES};
ghost use Rattle.wasi_calls_rules.specs.WasiStates.{Node, IsThere};
ghost use Rattle.wasi_calls_rules.specs.Small.{roomy, file_type_of, filestat_bytes_of};
ghost use Rattle.wasi_abi.specs.rules.Numbers.{file_type_number};
ghost use Rattle.wasi_calls.specs.Steps.{GivesValue};
ghost use Rattle.wasi_calls.specs.Views.{target_of};

use crate::descriptor::Names;
use crate::host::WasiState;
use file_tree::limits::{FILE_BYTES, UNIT_BYTES};
use std::alloc::AllocError;
use wasi_abi::{Errno, FileType, Filestat};

impl WasiState {
    /// How many bytes all files may have.
    fn room(&self) -> u64
        ensures room { result ≡ self.now.host.room }
        ensures within { used self.now.host.files ≤ self.now.host.room }
        ensures small { result < 2 ^ 63 }
    {
        u64::from(self.config.files()) * UNIT_BYTES
    }

    /// How many bytes a file has.
    pub(crate) fn size(&self, node: u64) -> u64
        ensures size { result ≡ length (bytes_of_node self.now.host.files node) }
        ensures limit { result ≤ FILE_BYTES }
    {
        self.tree.size(node)
    }

    /// Nothing where there is room for a file of this size. `Fbig` where no file may have it, and
    /// `Nospc` where all files would have too many bytes.
    pub(crate) fn check_room(&self, node: u64, size: u64) -> Result<(), Errno>
        ensures gives { GivesValue (λ x. x) result (roomy self.now.host node size) }
    {
        if size > FILE_BYTES {
            return Err(Errno::Fbig);
        }
        let room = self.room() + self.size(node);
        if self.tree.used_bytes() + size > room {
            return Err(Errno::Nospc);
        }
        Ok(())
    }

    /// Cuts a file to a size, or puts zeros after its bytes. The caller has tested that there is
    /// room. It fails only when out of memory, and changes nothing then.
    pub(crate) fn resize(&mut self, node: u64, size: u64) -> Result<(), AllocError>
        requires there { IsThere self.old.host.files (Node node) }
        requires file { is_directory self.old.host.files node ≡ false }
        requires limit { size ≤ FILE_BYTES }
        requires room { used self.old.host.files + size
            ≤ self.old.host.room + length (bytes_of_node self.old.host.files node) }
        ensures resized { OnOk result (self.new ≡ record self.old {
          host = record self.old.host {
            files =
                with_file_bytes node (resized (bytes_of_node self.old.host.files node) size)
                self.old.host.files;
          };
        }) }
        ensures unchanged { OnErr result (self.new ≡ self.old) }
    {
        self.tree.resize(node, size)?;
        Ok(())
    }

    /// The type of what is named.
    pub(crate) fn file_type(&self, names: Names) -> FileType
        ensures { file_type_number result ≡ file_type_of self.now.host (target_of names) }
    {
        match names {
            Names::Stream(_) => FileType::CharacterDevice,
            Names::Node(node) if self.tree.is_directory(node) => FileType::Directory,
            Names::Node(_) => FileType::RegularFile,
        }
    }

    /// What is told of what is named. A removed node has no link.
    pub(crate) fn filestat(&self, names: Names) -> Filestat
        ensures { filestat_layout result ≡ filestat_bytes_of self.now.host (target_of names) }
    {
        let file_type = self.file_type(names).number();
        match names {
            Names::Stream(_) => Filestat {
                node: 0,
                file_type,
                links: 1,
                size: 0,
            },
            Names::Node(node) => Filestat {
                node,
                file_type,
                links: u64::from(self.tree.has_path(node)),
                size: self.tree.size(node),
            },
        }
    }
}
