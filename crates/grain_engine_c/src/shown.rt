//! What a session shows.
ghost use Rattle.std.specs.Prelude.{◌≡◌, ◌+◌, ◌++◌, true, false, length, take, drop, min};

use crate::handle::CSession;
use crate::records::CSizes;
use crate::status::{ACCEPTED, NOT_NOW, status_of};
use grain_flat_file::CValue;
use rhai_session::Session;
use std::alloc::Global;

/// Copies as many items as there is room for.
fn copy_front<T: Copy>(from: &[T], to: &mut [T])
    ensures { to.new ≡ take (length to.old) from.now ++ drop (length from.now) to.old }
{
    let shared = from.len().min(to.len());
    to[..shared].copy_from_slice(&from[..shared]);
}

/// Copies as much of a text as there is room for with a 0 behind it, and returns how many bytes it has.
pub(crate) fn copy_text(from: &str, to: &mut [u8]) -> usize
    ensures { result ≡ length from.now }
{
    let Some(most) = to.len().checked_sub(1) else {
        return from.len();
    };
    let end = from.floor_char_boundary(most);
    let bytes = from.as_bytes();
    copy_front(&bytes[..end], to);
    to[end] = 0;
    bytes.len()
}

/// Has a session show the arguments of the call for which the last run waits.
///
/// - 0: they are shown, or what was shown last if no run waits.
/// - 3: the allocator refused.
/// - 15: the handle keeps nothing.
/// - 16: an argument has no rows.
#[unsafe(no_mangle)]
pub extern "C" fn grain_proved_session_asked(alloc: Global, session: &mut CSession) -> u32
    ensures made { session.new.made ≡ session.old.made }
    ensures empty { session.old.made ≡ false → result ≡ NOT_NOW }
    ensures state { session.old.made ≡ true
        → session.new.content.state ≡ session.old.content.state }
{
    let Some(mut kept) = session.take(alloc) else {
        return NOT_NOW;
    };
    let shown = kept.show_arguments();
    session.keep(alloc, kept);
    status_of(shown)
}

/// Has a session show the values of the host's own of which no copy is left, each as often as it was passed. It forgets them.
///
/// - 0: they are shown.
/// - 3: the allocator refused. None is forgotten.
/// - 15: the handle keeps nothing.
#[unsafe(no_mangle)]
pub extern "C" fn grain_proved_session_dropped(alloc: Global, session: &mut CSession) -> u32
    ensures made { session.new.made ≡ session.old.made }
    ensures empty { session.old.made ≡ false → result ≡ NOT_NOW }
    ensures state { session.old.made ≡ true
        → session.new.content.state ≡ session.old.content.state }
{
    let Some(mut kept) = session.take(alloc) else {
        return NOT_NOW;
    };
    let shown = kept.show_dropped();
    session.keep(alloc, kept);
    status_of(shown)
}

fn sizes_of(session: &Session) -> CSizes
    ensures rows { result.rows ≡ length session.now.rows }
    ensures texts { result.texts ≡ length session.now.texts }
    ensures count { result.count ≡ session.now.count }
{
    CSizes {
        rows: session.rows().len(),
        texts: session.texts().len(),
        count: session.count(),
    }
}

/// Writes the rows and the bytes of the values that are shown, as many as there is room for, and how many there are.
///
/// - 0: they are written.
/// - 15: the handle keeps nothing.
#[unsafe(no_mangle)]
pub extern "C" fn grain_proved_session_values(
    alloc: Global,
    session: &mut CSession,
    rows: &mut [CValue],
    texts: &mut [u8],
    sizes: &mut CSizes,
) -> u32
    ensures made { session.new.made ≡ session.old.made }
    ensures empty { session.old.made ≡ false → result ≡ NOT_NOW }
    ensures kept { session.old.made ≡ true → session.new.content ≡ session.old.content }
    ensures rows { result ≡ ACCEPTED → rows.new
        ≡ take (length rows.old) session.old.content.rows ++ drop (length session.old.content.rows) rows.old }
    ensures texts { result ≡ ACCEPTED → texts.new
        ≡ take (length texts.old) session.old.content.texts ++ drop (length session.old.content.texts) texts.old }
    ensures sizes { result ≡ ACCEPTED → (sizes.new.rows ≡ length session.old.content.rows)
        × ((sizes.new.texts ≡ length session.old.content.texts)
        × (sizes.new.count ≡ session.old.content.count)) }
{
    let Some(kept) = session.take(alloc) else {
        return NOT_NOW;
    };
    copy_front(kept.rows(), rows);
    copy_front(kept.texts(), texts);
    *sizes = sizes_of(&kept);
    session.keep(alloc, kept);
    ACCEPTED
}

/// Writes the name of the function for which the last run waits, as far as there is room, ended by 0. Returns how many bytes it has:
/// 0 if no run waits.
#[unsafe(no_mangle)]
pub extern "C" fn grain_proved_session_name(
    alloc: Global,
    session: &mut CSession,
    text: &mut [u8],
) -> usize
    ensures made { session.new.made ≡ session.old.made }
    ensures kept { session.old.made ≡ true → session.new.content ≡ session.old.content }
    ensures empty { session.old.made ≡ false → result ≡ 0 }
{
    let Some(kept) = session.take(alloc) else {
        return 0;
    };
    let size = copy_text(kept.asked_name(), text);
    session.keep(alloc, kept);
    size
}

/// Writes the last fault, as [`grain_proved_session_name`] does. 0: there was none.
#[unsafe(no_mangle)]
pub extern "C" fn grain_proved_session_fault(
    alloc: Global,
    session: &mut CSession,
    text: &mut [u8],
) -> usize
    ensures made { session.new.made ≡ session.old.made }
    ensures kept { session.old.made ≡ true → session.new.content ≡ session.old.content }
    ensures length { session.old.made ≡ true → result ≡ length session.old.content.fault }
    ensures empty { session.old.made ≡ false → result ≡ 0 }
{
    let Some(kept) = session.take(alloc) else {
        return 0;
    };
    let size = copy_text(kept.fault(), text);
    session.keep(alloc, kept);
    size
}

/// Writes what was printed and wasn't taken yet, as [`grain_proved_session_name`] does.
#[unsafe(no_mangle)]
pub extern "C" fn grain_proved_session_printed(
    alloc: Global,
    session: &mut CSession,
    text: &mut [u8],
) -> usize
    ensures made { session.new.made ≡ session.old.made }
    ensures kept { session.old.made ≡ true → session.new.content ≡ session.old.content }
    ensures empty { session.old.made ≡ false → result ≡ 0 }
{
    let Some(kept) = session.take(alloc) else {
        return 0;
    };
    let size = copy_text(kept.printed(), text);
    session.keep(alloc, kept);
    size
}
