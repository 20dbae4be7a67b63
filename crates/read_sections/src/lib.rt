// The sections of a text: a line is handed to the reader of its section; the lines of some sections are passed over, those of RULES are kept for their group.
#![tactic(auto)]

ghost use Rattle.std.specs.Prelude.{◌≤◌, length, take};
ghost use Rattle.leaf_fields.specs.Fields.{fields_at};
ghost use Rattle.scope.specs.Records.{Network};
ghost use Rattle.table_rows.specs.Holding.{Holds, Sound, After};
ghost use Rattle.read_sections.specs.Storing.{line_step};

use scope::{Counts, Reason, Section};

// Hands a line to the reader of its section.
pub fn store_line(
    section: Section,
    text: &[u8],
    at: usize,
    end: usize,
    s: Counts,
    words: &mut [u64],
    numbers: &mut [f64],
) -> Result<Counts, Reason>
    requires { Sound text.now s words.old numbers.old × (end ≤ length text.now) }
    ensures { (m : Network) → Holds text.now m s words.old numbers.old
        → After text.now (line_step section (fields_at (take end text.now) at) m) result words.old numbers.old words.new numbers.new }
{
    match section {
        Section::Junctions => store_nodes::junction_line(text, at, end, s, words, numbers),
        Section::Reservoirs => store_nodes::reservoir_line(text, at, end, s, words, numbers),
        Section::Tanks => store_nodes::tank_line(text, at, end, s, words, numbers),
        Section::Pipes => store_links::pipe_line(text, at, end, s, words, numbers),
        Section::Pumps => store_links::pump_line(text, at, end, s, words, numbers),
        Section::Valves => store_links::valve_line(text, at, end, s, words, numbers),
        Section::Curves => store_curves::curve_line(text, at, end, s, words, numbers),
        Section::Patterns => store_patterns::pattern_line(text, at, end, s, words, numbers),
        Section::Demands => store_demands::demand_line(text, at, end, s, words, numbers),
        Section::Emitters => store_places::emitter_line(text, at, end, s, words, numbers),
        Section::Coordinates => store_places::coordinates_line(text, at, end, s, words, numbers),
        Section::Times => store_times::times_line(text, at, end, s, words, numbers),
        Section::Rules => Ok(s),
        Section::Passed => Ok(s),
    }
}
