//! The files that are read and written.

use crate::troubles::Trouble;
use evaluation::Evaluated;
use std::fs;

/// The bytes of a file.
pub(crate) fn read_file<'a>(rt: &HostRuntime, name: &'a str) -> Result<Vec<u8>, Trouble<'a>> {
    fs::read(rt, name).map_err(|error| Trouble::Unread { name, error })
}

/// The edge records of a file, or none for `-`.
pub(crate) fn read_edges<'a>(
    rt: &HostRuntime,
    name: &'a str,
) -> Result<Option<Vec<u8>>, Trouble<'a>> {
    if name == "-" {
        return Ok(None);
    }
    Ok(Some(read_file(rt, name)?))
}

/// The text of a recipe: the argument itself, or for `@FILE` what the file holds, without one final newline.
pub(crate) fn read_recipe<'a>(rt: &HostRuntime, argument: &'a str) -> Result<Vec<u8>, Trouble<'a>> {
    let Some(name) = argument.strip_prefix('@') else {
        return Ok(Vec::from_slice(rt.alloc(), argument.as_bytes())?);
    };
    let mut text = read_file(rt, name)?;
    if text.last().copied() == Some(b'\n') {
        let _ = text.pop();
    }
    Ok(text)
}

/// Writes both files of records.
pub(crate) fn write_both<'a>(
    rt: &HostRuntime,
    vertices: &'a str,
    edges: &'a str,
    evaluated: &Evaluated,
) -> Result<(), Trouble<'a>> {
    fs::write(rt, vertices, evaluated.vertex_records.as_slice()).map_err(
        |error| Trouble::NoneWritten {
            vertices,
            edges,
            error,
        },
    )?;
    fs::write(rt, edges, evaluated.edge_records.as_slice()).map_err(
        |error| Trouble::VerticesWritten {
            vertices,
            edges,
            error,
        },
    )
}
