ghost use Rattle.std.specs.Prelude.{◌≡◌, ◌/◌, ◌%◌, ◌^◌, ◌<◌, Some, ◌==◌};
ghost use Rattle.text.specs.Rows.{listener_text, beyond_text, listeners_text};

use std::fmt;

// Whether a station, 0 to 7, is among the listeners.
fn listens(listeners: u32, station: u8) -> bool
    requires { station < 8 }
    ensures { result ≡ (listeners / 2 ^ station % 2 == 1) }
{
    (listeners >> station) % 2 == 1
}

// Whether a station above 7 is named among the listeners.
#[derive(Clone, Copy)]
pub struct Beyond(pub u32);

impl fmt::Display for Beyond {
    ghost output = { λ x. Some (beyond_text x.0) };

    fn fmt<W: fmt::Write>(&self, f: &mut fmt::Formatter<W>) -> fmt::Result {
        if self.0 < 256 {
            write!(f, "")
        } else {
            write!(f, " beyond")
        }
    }
}

// A station that may listen.
#[derive(Clone, Copy)]
pub struct Listener {
    pub listeners: u32,
    pub station: u8,
    ghost known: { station < 8 },
}

impl fmt::Display for Listener {
    ghost output = { λ x. Some (listener_text x.listeners x.station) };

    fn fmt<W: fmt::Write>(&self, f: &mut fmt::Formatter<W>) -> fmt::Result {
        let station = self.station;
        if listens(self.listeners, station) {
            write!(f, " {station}")
        } else {
            write!(f, "")
        }
    }
}

fn maybe(listeners: u32, station: u8) -> Listener
    requires { station < 8 }
    ensures listeners { result.listeners ≡ listeners }
    ensures station { result.station ≡ station }
{
    Listener { listeners, station }
}

// The stations that listen. (Eight names in one `write!`: a loop of eight would need an invariant of what the writer holds.)
#[derive(Clone, Copy)]
pub struct Listeners(pub u32);

impl fmt::Display for Listeners {
    ghost output = { λ x. Some (listeners_text x.0) };

    fn fmt<W: fmt::Write>(&self, f: &mut fmt::Formatter<W>) -> fmt::Result {
        let l = self.0;
        let (a, b, c, d) = (maybe(l, 0), maybe(l, 1), maybe(l, 2), maybe(l, 3));
        let (e, g, h, i) = (maybe(l, 4), maybe(l, 5), maybe(l, 6), maybe(l, 7));
        let beyond = Beyond(l);
        write!(f, "{a}{b}{c}{d}{e}{g}{h}{i}{beyond}")
    }
}
