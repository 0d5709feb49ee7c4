//! Functions of arrays and object maps that call functions. A host's function can't call one of the script, so these are scripts
//! themselves, added to each script that names them.
//!
//! They call no function that a script can declare, since that one would be found first: they append by `+=`, and count by a loop.
//! No script can declare an operator, `is_def_fn`, `type_of`, nor what `f.call(x)` does. Those of object maps need `keys`. If the
//! library has a function of the same name for other arguments, it is called with the array as its first one: as a method this one
//! would be found.

use rhai_errors::CompileError;
use rhai_syntax::{Syntax, parse_more};
use std::alloc::{AllocError, Global};

/// A function of the prelude.
struct Entry {
    name: &'static str,
    params: usize,
    /// Its text, in parts.
    parts: &'static [&'static str],
}

/// How an array passes its items: `n` is 1 if as the argument, 2 if with the index after it, and 0 if as `this`.
const PASSING: &'static str =
    "let n = if is_def_fn(f, 0) { 0 } else if is_def_fn(f, 2) && !is_def_fn(f, 1) { 2 } else { 1 }; ";

/// What the function gives for the item `x` at the index `i`.
const GIVEN: &'static str =
    "(if n == 1 { f.call(x) } else if n == 2 { f.call(x, i) } else { x.call(f) })";

/// The index `s` from which items are visited, which counts from the end if it is below 0.
const STARTING: &'static str = "if s < 0 { for _ in this { s += 1; } } ";

/// As [`PASSING`], after what the items before have made.
const REDUCING: &'static str =
    "let n = if is_def_fn(f, 1) { 1 } else if is_def_fn(f, 3) && !is_def_fn(f, 2) { 3 } else { 2 }; ";

/// What the function makes of what was made before and of an item.
const REDUCED: &'static str =
    "(if n == 2 { f.call(made, x) } else if n == 3 { f.call(made, x, i) } else { x.call(f, made) })";

/// How an object map passes its entries: the name and the value, or the name alone with the value as `this`.
const NAMING: &'static str = "let n = if is_def_fn(f, 1) && !is_def_fn(f, 2) { 1 } else { 2 }; ";

/// What the function gives for the value `x` of the name `k`.
const NAMED: &'static str = "(if n == 2 { f.call(k, x) } else { x.call(f, k) })";

const ENTRIES: &'static [Entry] = &[
    Entry {
        name: "all",
        params: 1,
        parts: &[
            "fn array.all(f) { ",
            PASSING,
            "for (x, i) in this { if !",
            GIVEN,
            " { return false; } } true }\n",
        ],
    },
    Entry {
        name: "dedup",
        params: 1,
        parts: &[
            "fn array.dedup(f) { let kept = []; let last = (); let is_first = true; for x in this { if is_first || !f.call(last, x) { kept += [x]; last = x; } is_first = false; } this = kept; () }\n",
        ],
    },
    Entry {
        name: "drain",
        params: 1,
        parts: &[
            "fn array.drain(f) { if type_of(f) == `range` || type_of(f) == `range=` { let all = this; let gone = drain(all, f); this = all; return gone; } ",
            PASSING,
            "let kept = []; let dropped = []; for (x, i) in this { if ",
            GIVEN,
            " { dropped += [x]; } else { kept += [x]; } } this = kept; dropped }\n",
        ],
    },
    Entry {
        name: "drain",
        params: 1,
        parts: &[
            "fn map.drain(f) { ",
            NAMING,
            "let kept = #{}; let dropped = #{}; for k in this.keys() { let x = this[k]; if ",
            NAMED,
            " { dropped[k] = x; } else { kept[k] = x; } } this = kept; dropped }\n",
        ],
    },
    Entry {
        name: "filter",
        params: 1,
        parts: &[
            "fn array.filter(f) { ",
            PASSING,
            "let kept = []; for (x, i) in this { if ",
            GIVEN,
            " { kept += [x]; } } kept }\n",
        ],
    },
    Entry {
        name: "filter",
        params: 1,
        parts: &[
            "fn map.filter(f) { ",
            NAMING,
            "let kept = #{}; for k in this.keys() { let x = this[k]; if ",
            NAMED,
            " { kept[k] = x; } } kept }\n",
        ],
    },
    Entry {
        name: "find",
        params: 1,
        parts: &[
            "fn array.find(f) { ",
            PASSING,
            "for (x, i) in this { if ",
            GIVEN,
            " { return x; } } () }\n",
        ],
    },
    Entry {
        name: "find",
        params: 2,
        parts: &[
            "fn array.find(f, s) { ",
            PASSING,
            STARTING,
            "for (x, i) in this { if i >= s && ",
            GIVEN,
            " { return x; } } () }\n",
        ],
    },
    Entry {
        name: "find_index",
        params: 1,
        parts: &[
            "fn array.find_index(f) { ",
            PASSING,
            "for (x, i) in this { if ",
            GIVEN,
            " { return i; } } -1 }\n",
        ],
    },
    Entry {
        name: "find_map",
        params: 1,
        parts: &[
            "fn array.find_map(f) { ",
            PASSING,
            "for (x, i) in this { let found = ",
            GIVEN,
            "; if found != () { return found; } } () }\n",
        ],
    },
    Entry {
        name: "find_map",
        params: 2,
        parts: &[
            "fn array.find_map(f, s) { ",
            PASSING,
            STARTING,
            "for (x, i) in this { if i >= s { let found = ",
            GIVEN,
            "; if found != () { return found; } } } () }\n",
        ],
    },
    Entry {
        name: "for_each",
        params: 1,
        parts: &[
            "fn array.for_each(f) { let n = if is_def_fn(f, 0) { 0 } else if is_def_fn(f, 1) { 1 } else { 2 }; for (x, i) in this { if n == 0 { x.call(f); } else if n == 1 { x.call(f, i); } else { f.call(x); } if n < 2 { this[i] = x; } } () }\n",
        ],
    },
    Entry {
        name: "index_of",
        params: 1,
        parts: &[
            "fn array.index_of(f) { if type_of(f) != `Fn` { return index_of(this, f); } ",
            PASSING,
            "for (x, i) in this { if ",
            GIVEN,
            " { return i; } } -1 }\n",
        ],
    },
    Entry {
        name: "index_of",
        params: 2,
        parts: &[
            "fn array.index_of(f, s) { if type_of(f) != `Fn` { return index_of(this, f, s); } ",
            PASSING,
            STARTING,
            "for (x, i) in this { if i >= s && ",
            GIVEN,
            " { return i; } } -1 }\n",
        ],
    },
    Entry {
        name: "map",
        params: 1,
        parts: &[
            "fn array.map(f) { ",
            PASSING,
            "let made = []; if n == 1 { for x in this { made += [f.call(x)]; } return made; } for (x, i) in this { made += [",
            GIVEN,
            "]; } made }\n",
        ],
    },
    Entry {
        name: "reduce",
        params: 1,
        parts: &[
            "fn array.reduce(f) { ",
            REDUCING,
            "let made = (); for (x, i) in this { made = ",
            REDUCED,
            "; } made }\n",
        ],
    },
    Entry {
        name: "reduce",
        params: 2,
        parts: &[
            "fn array.reduce(f, made) { ",
            REDUCING,
            "for (x, i) in this { made = ",
            REDUCED,
            "; } made }\n",
        ],
    },
    Entry {
        name: "reduce_rev",
        params: 1,
        parts: &[
            "fn array.reduce_rev(f) { ",
            REDUCING,
            "let made = (); let i = 0; for _ in this { i += 1; } while i > 0 { i -= 1; let x = this[i]; made = ",
            REDUCED,
            "; } made }\n",
        ],
    },
    Entry {
        name: "reduce_rev",
        params: 2,
        parts: &[
            "fn array.reduce_rev(f, made) { ",
            REDUCING,
            "let i = 0; for _ in this { i += 1; } while i > 0 { i -= 1; let x = this[i]; made = ",
            REDUCED,
            "; } made }\n",
        ],
    },
    Entry {
        name: "retain",
        params: 1,
        parts: &[
            "fn array.retain(f) { if type_of(f) == `range` || type_of(f) == `range=` { let all = this; let gone = retain(all, f); this = all; return gone; } ",
            PASSING,
            "let kept = []; let dropped = []; for (x, i) in this { if ",
            GIVEN,
            " { kept += [x]; } else { dropped += [x]; } } this = kept; dropped }\n",
        ],
    },
    Entry {
        name: "retain",
        params: 1,
        parts: &[
            "fn map.retain(f) { ",
            NAMING,
            "let kept = #{}; let dropped = #{}; for k in this.keys() { let x = this[k]; if ",
            NAMED,
            " { kept[k] = x; } else { dropped[k] = x; } } this = kept; dropped }\n",
        ],
    },
    Entry {
        name: "some",
        params: 1,
        parts: &[
            "fn array.some(f) { ",
            PASSING,
            "for (x, i) in this { if ",
            GIVEN,
            " { return true; } } false }\n",
        ],
    },
    Entry {
        name: "sort",
        params: 1,
        parts: &[
            "fn array.sort(f) { let size = 0; for _ in this { size += 1; } let width = 1; while width < size { let merged = []; let start = 0; while start < size { let i = start; let middle = start + width; if middle > size { middle = size; } let j = middle; let end = middle + width; if end > size { end = size; } while i < middle || j < end { if j >= end || (i < middle && f.call(this[i], this[j]) <= 0) { merged += [this[i]]; i += 1; } else { merged += [this[j]]; j += 1; } } start = end; } this = merged; width *= 2; } () }\n",
        ],
    },
];

/// The script with the functions of the prelude that it names and doesn't have itself. Their lines are numbered after this
/// many others.
pub(crate) fn with_prelude(
    alloc: Global,
    syntax: Syntax,
    lines: u32,
) -> Result<Syntax, CompileError> {
    let functions = needed(alloc, &syntax)?;
    if functions.is_empty() {
        return Ok(syntax);
    }
    parse_more(alloc, functions.as_str(), syntax, None, lines)
}

/// The functions of the prelude that the script names and doesn't have itself; empty if there are none.
fn needed(alloc: Global, syntax: &Syntax) -> Result<String, AllocError> {
    let mut text = String::new(alloc);
    for entry in ENTRIES {
        if is_named(syntax, entry.name) && !is_declared(syntax, entry.name, entry.params) {
            add(&mut text, entry)?;
        }
    }
    Ok(text)
}

/// Appends the text of a function.
fn add(text: &mut String, entry: &Entry) -> Result<(), AllocError> {
    for part in entry.parts {
        text.push_str(part)?;
    }
    Ok(())
}

/// Whether the script has the name anywhere.
fn is_named(syntax: &Syntax, name: &str) -> bool {
    syntax
        .names
        .list()
        .iter()
        .any(|known| known.as_str() == name)
}

/// Whether the script has a function of this name with this number of parameters.
fn is_declared(syntax: &Syntax, name: &str, params: usize) -> bool {
    for function in &syntax.functions {
        if function.params.len() == params && syntax.names.get(function.name) == name {
            return true;
        }
    }
    false
}
