//! Bytes that stand at a place of a disk, as a line writes them.

use crate::escapes::push_hex;
use anyhow::{Context, Result};
use std::alloc::Global;

/// A place, counted in bytes from 0, and the bytes there.
#[derive(Drop)]
pub struct BytesAt {
    pub at: u64,
    pub bytes: Vec<u8>,
}

/// Reads `AT HEX`.
pub fn read_bytes_at(alloc: Global, text: &str) -> Result<BytesAt> {
    let (at, hex) = text.split_once(' ').context("no bytes")?;
    let at = at.parse::<u64>()?;
    let mut bytes = Vec::new(alloc);
    push_hex(&mut bytes, hex)?;
    Ok(BytesAt { at, bytes })
}
