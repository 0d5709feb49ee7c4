//! Variables, and functions of the host.
ghost use Rattle.std.specs.Prelude.{◌≡◌, true, false};
ghost use Rattle.rhai_runtime.specs.Named.{LacksName};

use crate::handle::CSession;
use crate::status::{ACCEPTED, NO_NAME, NOT_NOW, status_of};
use grain_flat_file::CValue;
use std::alloc::Global;

/// Registers a function of the host by its name and number of parameters.
///
/// - 0: it is registered.
/// - 3: the allocator refused.
/// - 15: the handle keeps nothing.
/// - 16: the name is not UTF-8.
#[unsafe(no_mangle)]
pub extern "C" fn grain_proved_session_register(
    alloc: Global,
    session: &mut CSession,
    name: &[u8],
    parameters: u32,
) -> u32
    ensures made { session.new.made ≡ session.old.made }
    ensures empty { session.old.made ≡ false → result ≡ NOT_NOW }
    ensures kept { session.old.made ≡ true → session.new.content ≡ session.old.content }
{
    let Some(mut kept) = session.take(alloc) else {
        return NOT_NOW;
    };
    let registered = kept.register(name, parameters as usize);
    session.keep(alloc, kept);
    status_of(registered)
}

/// Sets the variable of this name to the value that the rows are.
///
/// - 0: it has the value. Otherwise nothing has changed.
/// - 3: the allocator refused.
/// - 14: the program has no such name.
/// - 15: the handle keeps nothing.
/// - 16: the name is no text, or the rows are not one value within the bounds.
#[unsafe(no_mangle)]
pub extern "C" fn grain_proved_session_set(
    alloc: Global,
    session: &mut CSession,
    name: &[u8],
    rows: &[CValue],
    texts: &[u8],
) -> u32
    ensures made { session.new.made ≡ session.old.made }
    ensures empty { session.old.made ≡ false → result ≡ NOT_NOW }
    ensures kept { session.old.made ≡ true → session.new.content ≡ session.old.content }
    ensures no_name { result ≡ NO_NAME → LacksName session.old.content.state.program name.now }
{
    let Some(mut kept) = session.take(alloc) else {
        return NOT_NOW;
    };
    let set = kept.set_variable(name, rows, texts);
    session.keep(alloc, kept);
    status_of(set)
}

/// Shows the value of the variable of this name, for [`grain_proved_session_values`](crate::shown).
///
/// - 0: it is shown.
/// - 3: the allocator refused.
/// - 14: no variable has this name.
/// - 15: the handle keeps nothing.
/// - 16: the name is no text, or the value has no rows.
#[unsafe(no_mangle)]
pub extern "C" fn grain_proved_session_get(
    alloc: Global,
    session: &mut CSession,
    name: &[u8],
) -> u32
    ensures made { session.new.made ≡ session.old.made }
    ensures empty { session.old.made ≡ false → result ≡ NOT_NOW }
    ensures state { session.old.made ≡ true
        → session.new.content.state ≡ session.old.content.state }
    ensures one { result ≡ ACCEPTED → session.new.content.count ≡ 1 }
{
    let Some(mut kept) = session.take(alloc) else {
        return NOT_NOW;
    };
    let found = kept.show_variable(name);
    session.keep(alloc, kept);
    status_of(found)
}

/// Forgets what was printed.
#[unsafe(no_mangle)]
pub extern "C" fn grain_proved_session_take_printed(alloc: Global, session: &mut CSession)
    ensures made { session.new.made ≡ session.old.made }
    ensures kept { session.old.made ≡ true → session.new.content ≡ session.old.content }
{
    if let Some(mut kept) = session.take(alloc) {
        kept.clear_printed();
        session.keep(alloc, kept);
    }
}
