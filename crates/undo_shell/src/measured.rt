//! How large the records of a store are.
ghost use Rattle.std.specs.Prelude.{◌≡◌, ◌<◌, true, length};
ghost use Rattle.shell_scripts.specs.View.{leaves_shown};

use crate::stored::{Node, node_to_read};
use crate::terminals::Terminals;
use codec::LentRows;
use record_key::Refusal;
use shell_scripts::{DONE, FAILED, refuse};
use std::fs::{File, Files};
use std::io;
use std::time::Clock;

/// How many records there are, and how many bytes they have.
#[derive(Clone, Copy)]
struct Sizes {
    rows: u64,
    key_bytes: u64,
    value_bytes: u64,
    longest_key: usize,
    longest_value: usize,
}

/// Prints how large the records of the store in this folder are. Nothing of the store is changed.
pub fn measure<R>(rt: &R, terminals: Terminals, folder: Option<&str>) -> u8
where
    R: Print + Eprint + AllocGlobal + Files<File = File> + Clock + Copy,
{
    match node_to_read(rt, terminals, folder, "stat") {
        Ok(node) => measure_node(rt, &node),
        Err(status) => status,
    }
}

fn measure_node<R: Print>(rt: &R, node: &Node) -> u8 {
    let Ok(leaves) = node.leaves() else {
        return refuse(&mut io::writer(rt), Refusal::NotConnected, FAILED);
    };
    let sizes = sizes_of(node, leaves);
    let Sizes {
        rows,
        key_bytes,
        value_bytes,
        longest_key,
        longest_value,
    } = sizes;
    let written = println!(rt;
        "rows {rows}\nkey bytes {key_bytes}\nvalue bytes {value_bytes}\nlongest key {longest_key}\nlongest value {longest_value}\nleaves {leaves}"
    );
    match written {
        Ok(()) => DONE,
        Err(_) => FAILED,
    }
}

/// The sizes of all that these leaves have.
fn sizes_of(node: &Node, leaves: usize) -> Sizes
    requires up { node.now.dc_up ≡ true }
    requires all { leaves ≡ length (leaves_shown node.now) }
{
    let mut sizes = Sizes {
        rows: 0,
        key_bytes: 0,
        value_bytes: 0,
        longest_key: 0,
        longest_value: 0,
    };
    for place in 0..leaves {
        sizes = with_rows(sizes, node.leaf(place).rows());
    }
    sizes
}

fn with_rows(sizes: Sizes, rows: LentRows<'_>) -> Sizes {
    let (mut sizes, mut rows) = (sizes, rows);
    for _ in 0..rows.len() {
        let Some((key, value)) = rows.next() else {
            break;
        };
        let (key, value) = (key.as_bytes().len(), value.as_bytes().len());
        sizes.rows = sizes.rows.saturating_add(1);
        sizes.key_bytes = sizes.key_bytes.saturating_add(key as u64);
        sizes.value_bytes = sizes.value_bytes.saturating_add(value as u64);
        sizes.longest_key = sizes.longest_key.max(key);
        sizes.longest_value = sizes.longest_value.max(value);
    }
    sizes
}
