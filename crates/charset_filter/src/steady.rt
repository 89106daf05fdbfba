//! Runs in which no set can change, and without bytes behind their events.

ghost use Rattle.std.specs.Prelude.{◌≡◌, ◌≤◌, length, take, ◌==◌, ◌||◌};
ghost use Rattle.std.specs.Int.{is_in_range};
ghost use Rattle.charset_filter.specs.Steady.{IsSteadyRun, is_quiet_final, place_after};

/// Where the scan of a run is.
#[derive(Clone, Copy)]
pub enum Place {
    /// Outside of escape and control sequences.
    Outside,
    /// Directly after ESC.
    BehindEsc,
    /// In the header of a control sequence.
    InHeader,
    /// After a byte that breaks the run off.
    Broken,
}

impl Place {
    /// Where the scan is after a byte.
    fn after(self, byte: u8) -> Place
        ensures { result ≡ place_after self byte }
    {
        match self {
            Place::Outside => after_outside(byte),
            Place::BehindEsc => after_esc(byte),
            Place::InHeader => after_header(byte),
            Place::Broken => Place::Broken,
        }
    }
}

fn after_outside(byte: u8) -> Place
    ensures { result ≡ place_after Place.Outside byte }
{
    match byte {
        0x1B => Place::BehindEsc,
        0x0E | 0x0F => Place::Broken,
        _ => Place::Outside,
    }
}

fn after_esc(byte: u8) -> Place
    ensures { result ≡ place_after Place.BehindEsc byte }
{
    match byte {
        b'[' => Place::InHeader,
        b']' => Place::Outside,
        _ => Place::Broken,
    }
}

fn after_header(byte: u8) -> Place
    ensures { result ≡ place_after Place.InHeader byte }
{
    match byte {
        b':' | b'h' | b'l' | b'p' | b'r' | b's' | b'u' => Place::Broken,
        0x20..=0x3F => Place::InHeader,
        0x40..=0x7E => Place::Outside,
        _ => Place::Broken,
    }
}

/// How many bytes at the start are a steady run, which begins and ends outside of sequences.
#[tactic(auto, using(crate::proofs::SteadyLemmas::run_byte))]
pub fn steady_len(bytes: &[u8]) -> usize
    ensures within { result ≤ length bytes.now }
    ensures steady { IsSteadyRun (take result bytes.now) }
{
    let mut place = Place::Outside;
    let mut len = 0;
    let mut at = 0;
    while at < bytes.len() {
        place = place.after(bytes[at]);
        at += 1;
        match place {
            Place::Outside => len = at,
            Place::BehindEsc | Place::InHeader => {}
            Place::Broken => break,
        }
    }
    len
}
