//! `echo`, which asks for requests, and what workers are made with.

use command_words::Sizes;
use std::alloc::Global;
use std::test::Fail;
use wasi_abi::{Answer, Config};
use wasm_syntax::ItemList;

/// Reads a line, writes it, and goes on until nothing is read.
pub(crate) const ECHO: [&str; 9] = [
    "0061736d01000000 010c02600000 60047f7f7f7f017f",
    "02440216776173695f736e617073686f745f70726576696577310766645f726561640001",
    "16776173695f736e617073686f745f70726576696577310866645f77726974650001",
    "03020100 0503010001 071302065f737461727400 02066d656d6f72790200",
    "0a31012f00 0340 4100410041014110 10001a",
    "41102802 00450d01 410c41102802 00360200",
    "41014108410141141001 1a0c00 0b0b",
    "0b12010041000b0c",
    "400000000010000040000000",
];

/// Texts of a module, and pages, units of files and sectors of the journal of its worker.
pub(crate) type Asked = (&'static [&'static str], [u64; 3]);

pub(crate) fn sizes_of(numbers: [u64; 3]) -> Sizes {
    let [pages, files, journal] = numbers;
    Sizes {
        pages,
        files,
        journal,
    }
}

/// One page, one file unit, 64 journal sectors and no argument.
pub(crate) fn config(alloc: Global) -> Result<Config, Fail> {
    Ok(Config::new(1, 1, 64, ItemList::new(alloc), ItemList::new(alloc))?)
}

/// The answer that is the request `hello`.
pub(crate) fn hello(alloc: Global) -> Result<Answer, Fail> {
    let text = ItemList::from_vec(Vec::from_slice(alloc, b"hello")?);
    Ok(Answer::Request { text })
}
