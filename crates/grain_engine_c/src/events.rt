//! What happened to a run, by number.
ghost use Rattle.std.specs.Prelude.{◌≡◌};
ghost use Rattle.grain_engine_c.specs.Numbers.{event_number};

use rhai_session::HostEvent;

/// No run is under way.
pub const IDLE: u32 = 0;

/// It has returned a value.
pub const RETURNED: u32 = 1;

/// It waits for a call of the host.
pub const CALLS: u32 = 2;

/// Its turns are used up.
pub const PAUSED: u32 = 3;

/// It has ended by a fault.
pub const FAULTED: u32 = 4;

/// It has ended, since an allocation was refused.
pub const OUT_OF_MEMORY: u32 = 5;

/// The number of an event.
pub(crate) fn event_of(event: HostEvent) -> u32
    ensures { result ≡ event_number event }
{
    match event {
        HostEvent::Idle => IDLE,
        HostEvent::Returned => RETURNED,
        HostEvent::Calls => CALLS,
        HostEvent::Paused => PAUSED,
        HostEvent::Failed => FAULTED,
        HostEvent::OutOfMemory => OUT_OF_MEMORY,
    }
}
