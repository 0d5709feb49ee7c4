//! `grain addr2line`: the function and the position of addresses.

use clap::ArgMatches;
use grain::{Program, Sidecar, pos};
use grain_cli::arguments::{Argument, FILE, Subcommand};
use grain_cli::failure::Failure;
use grain_cli::files::{is_sidecar, program_of, read_bytes, sidecar_of};
use grain_cli::json_lines::{line_of, writer};
use grain_cli::output::write_standard;
use grain_cli::places::chunk_at;
use grain_cli::refusal_object::write_site;
use grain_listing::{name_of, push_name};
use json::Writer;
use std::alloc::{AllocError, Global};

/// `grain addr2line`
pub const SUBCOMMAND: Subcommand = Subcommand {
    name: "addr2line",
    about: "Maps addresses to functions and source positions",
    example: "Example:\n  grain addr2line program.grain 14 23",
    arguments: &[
        FILE,
        Argument::Words {
            name: "ADDRESS",
            help: "Addresses in the code, in decimal",
        },
        Argument::Flag {
            name: "json",
            letter: None,
            help: "Write a JSON object for each address, on a line of its own",
        },
    ],
};

/// What is known of an address.
#[derive(Clone, Copy)]
struct Known<'a> {
    at: u32,
    function: Option<&'a str>,
    /// Its line and column, which is 0 if there is none.
    site: Option<(usize, usize)>,
}

/// What a program knows of an address.
fn known_in(program: &Program, at: u32) -> Known<'_> {
    let position = program.position(at as usize);
    let site = match (position.line(), position.position()) {
        (Some(line), column) => Some((line, column.unwrap_or(0))),
        (None, _) => None,
    };
    let function = match chunk_at(program, at as usize) {
        Some(place) => Some(name_of(program, place)),
        None => None,
    };
    Known { at, function, site }
}

/// What a sidecar knows of an address.
fn known_apart(sidecar: &Sidecar, at: u32) -> Known<'_> {
    let site = match pos::resolve(&sidecar.positions, at) {
        Some(site) => Some((site.line as usize, site.column as usize)),
        None => None,
    };
    Known {
        at,
        function: None,
        site,
    }
}

/// Appends the function and the position, or the address if there is none.
fn push_known(known: Known<'_>, text: &mut String) -> Result<(), AllocError> {
    let Known { at, function, site } = known;
    push_name(function.unwrap_or("?"), text)?;
    match site {
        Some((line, 0)) => write!(text, " at {line}\n"),
        Some((line, column)) => write!(text, " at {line}:{column}\n"),
        None => write!(text, " at address {at}\n"),
    }
}

/// Appends a line of text: the function and the position, or the address where there is none.
fn write_line(alloc: Global, out: &mut Vec<u8>, known: Known<'_>) -> Result<(), AllocError> {
    let mut text = String::new(alloc);
    push_known(known, &mut text)?;
    out.extend_from_slice(text.as_bytes())
}

/// Appends what is known of an address as an object.
fn write_object(json: &mut Writer, known: Known<'_>) -> Result<(), AllocError> {
    json.begin_object()?;
    json.key("address")?;
    json.u64(u64::from(known.at))?;
    json.key("function")?;
    match known.function {
        Some(name) => json.string(name)?,
        None => json.null()?,
    }
    match known.site {
        Some((line, column)) => write_site(json, "position", line as u64, column as u64)?,
        None => {
            json.key("position")?;
            json.null()?;
        }
    }
    json.end_object()
}

/// Appends a line of JSON.
fn write_json(alloc: Global, out: &mut Vec<u8>, known: Known<'_>) -> Result<(), AllocError> {
    let mut json = writer(alloc);
    write_object(&mut json, known)?;
    out.extend_from_slice(line_of(json)?.as_slice())
}

/// Appends what is known of an address.
fn write_known(
    alloc: Global,
    out: &mut Vec<u8>,
    known: Known<'_>,
    is_json: bool,
) -> Result<(), AllocError> {
    if is_json {
        write_json(alloc, out, known)
    } else {
        write_line(alloc, out, known)
    }
}

/// What a sidecar knows of each address, a line each.
fn lines_apart(
    alloc: Global,
    sidecar: &Sidecar,
    addresses: &[u32],
    is_json: bool,
) -> Result<Vec<u8>, AllocError> {
    let mut out = Vec::new(alloc);
    for at in addresses {
        write_known(alloc, &mut out, known_apart(sidecar, *at), is_json)?;
    }
    Ok(out)
}

/// What a program knows of each address, a line each.
fn lines_in(
    alloc: Global,
    program: &Program,
    addresses: &[u32],
    is_json: bool,
) -> Result<Vec<u8>, AllocError> {
    let mut out = Vec::new(alloc);
    for at in addresses {
        write_known(alloc, &mut out, known_in(program, *at), is_json)?;
    }
    Ok(out)
}

/// What is known of each address, a line each.
fn lines_of(
    alloc: Global,
    path: &str,
    bytes: &[u8],
    addresses: &[u32],
    is_json: bool,
) -> Result<Vec<u8>, Failure> {
    if is_sidecar(bytes) {
        let sidecar = sidecar_of(alloc, path, bytes)?;
        return Ok(lines_apart(alloc, &sidecar, addresses, is_json)?);
    }
    let program = program_of(alloc, path, bytes)?;
    Ok(lines_in(alloc, &program, addresses, is_json)?)
}

/// The addresses that the arguments name.
fn addresses_of(alloc: Global, matches: &ArgMatches<'_>) -> Result<Vec<u32>, Failure> {
    let mut addresses = Vec::new(alloc);
    for word in matches.get_raw("ADDRESS").unwrap_or_default() {
        match word.parse::<u32>() {
            Ok(at) => addresses.push(at).map_err(AllocError::from)?,
            Err(_) => {
                let what = "not an address (a decimal number below 4294967296)";
                return Err(Failure::of_argument(alloc, word, what));
            }
        }
    }
    Ok(addresses)
}

/// Says what the addresses are of.
pub fn run(rt: &HostRuntime, matches: &ArgMatches<'_>) -> Result<u8, Failure> {
    let path = matches.get_str("FILE").unwrap_or("-");
    let addresses = addresses_of(rt.alloc(), matches)?;
    let bytes = read_bytes(rt, path)?;
    let is_json = matches.get_flag("json");
    write_standard(
        rt,
        &lines_of(rt.alloc(), path, &bytes, &addresses, is_json)?,
    )?;
    Ok(0)
}
