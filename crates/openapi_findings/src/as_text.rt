//! Findings as text for a person.
ghost use Rattle.std.specs.Prelude.{◌≡◌, ◌+◌, ◌≤◌, codes, decimal, length, option_map, replicate, string_bytes};
ghost use Rattle.std.specs.Fmt.{WritesOnOk};
ghost use Rattle.openapi_findings.specs.Escaped.{pointer_text};
ghost use Rattle.openapi_findings.specs.Excerpts.{part_in};
ghost use Rattle.openapi_findings.specs.Printed as spec;

use crate::escape::Escape;
use crate::excerpt::Excerpt;
use crate::finding::Finding;
use openapi_json::Point;
use openapi_node::PlaceStep;
use std::fmt;

/// A finding as text for a person, in the layout of `rustc`.
///
/// It prints the message, the file with line and column, and the line with a mark below the point. The JSON Pointer
/// (RFC 6901) of the value and the help text follow. Each line ends with a line feed.
#[derive(Clone, Copy)]
pub struct AsText<'a> {
    /// The finding.
    pub finding: &'a Finding,
    /// The name of the file.
    pub file: &'a str,
    /// The text of the file.
    pub bytes: &'a [u8],
}

impl fmt::Display for AsText<'_> {
    ghost use Rattle.std.specs.Prelude.{Some};
    ghost use Rattle.openapi_findings.specs.Printed.{person_text};

    ghost output = { λ it. Some (person_text it.file.now it.bytes.now it.finding.now) };

    #[tactic(auto, unfolding(crate::specs::Printed::person_text))]
    fn fmt<W: fmt::Write>(&self, f: &mut fmt::Formatter<W>) -> fmt::Result {
        let finding = self.finding;
        let point = finding.point();
        let margin = margin_of(point);
        write_title(f, finding)?;
        self.write_where(f, margin, point)?;
        write_place(f, margin, &finding.place)?;
        write_help(f, margin, &finding.help)
    }
}

impl AsText<'_> {
    /// Writes the file, and the line of the point if there is one.
    #[tactic(auto, unfolding(crate::specs::Printed::where_text))]
    fn write_where<W: fmt::Write>(
        &self,
        f: &mut fmt::Formatter<W>,
        margin: usize,
        point: Option<Point>,
    ) -> fmt::Result
        ensures { WritesOnOk W.write_str_gives f.old result (spec.where_text margin self.now.file.now self.now.bytes.now point) f.new }
    {
        match point {
            Some(point) => self.write_lines(f, margin, point),
            None => self.write_file(f),
        }
    }

    /// Writes the file with line and column, and the line with a mark below the point.
    #[tactic(auto, unfolding(crate::specs::Printed::lines))]
    fn write_lines<W: fmt::Write>(
        &self,
        f: &mut fmt::Formatter<W>,
        margin: usize,
        point: Point,
    ) -> fmt::Result
        ensures { WritesOnOk W.write_str_gives f.old result (spec.lines margin self.now.file.now self.now.bytes.now point) f.new }
    {
        self.write_point(f, margin, point)?;
        let excerpt = Excerpt::around(self.bytes, point.offset);
        write_marked(f, margin, point.line, &excerpt)
    }

    /// Writes the file with line and column.
    #[tactic(auto, unfolding(crate::specs::Printed::point_line))]
    fn write_point<W: fmt::Write>(
        &self,
        f: &mut fmt::Formatter<W>,
        margin: usize,
        point: Point,
    ) -> fmt::Result
        ensures { WritesOnOk W.write_str_gives f.old result (spec.point_line margin self.now.file.now point) f.new }
    {
        write_spaces(f, margin)?;
        f.write_str("--> ")?;
        Escape::Terminal.write(f, self.file)?;
        write_numbers(f, point)
    }

    /// Writes the file alone.
    #[tactic(auto, unfolding(crate::specs::Printed::file_line))]
    fn write_file<W: fmt::Write>(&self, f: &mut fmt::Formatter<W>) -> fmt::Result
        ensures { WritesOnOk W.write_str_gives f.old result (spec.file_line self.now.file.now) f.new }
    {
        f.write_str("  --> ")?;
        Escape::Terminal.write(f, self.file)?;
        f.write_str("\n")
    }
}

/// Writes the line and the column of a point, and the end of the line.
#[tactic(auto, unfolding(crate::specs::Printed::numbers))]
fn write_numbers<W: fmt::Write>(f: &mut fmt::Formatter<W>, point: Point) -> fmt::Result
    ensures { WritesOnOk W.write_str_gives f.old result (spec.numbers point) f.new }
{
    let (line, column) = (point.line, point.column);
    writeln!(f, ":{line}:{column}")
}

/// Returns the width of the margin beside the lines of the text.
fn margin_of(point: Option<Point>) -> usize
    ensures { result ≡ spec.margin_of point }
{
    match point {
        Some(point) => digits(point.line) + 1,
        None => 2,
    }
}

/// Returns how many digits a number has.
fn digits(number: usize) -> usize
    ensures value { result ≡ length (decimal number) }
    ensures few { result ≤ 20 }
{
    if number < 10 {
        1
    } else {
        digits(number / 10).saturating_add(1)
    }
}

/// Writes the severity, the code and the message.
#[tactic(auto, unfolding(crate::specs::Printed::title))]
fn write_title<W: fmt::Write>(f: &mut fmt::Formatter<W>, finding: &Finding) -> fmt::Result
    ensures { WritesOnOk W.write_str_gives f.old result (spec.title finding.now) f.new }
{
    let (severity, code) = (finding.severity(), finding.code);
    write!(f, "{severity}[{code}]: ")?;
    Escape::Terminal.write(f, finding.message.as_str())?;
    f.write_str("\n")
}

/// Writes the part of a line between bars, with a mark below the point.
#[tactic(auto, unfolding(crate::specs::Printed::marked))]
fn write_marked<W: fmt::Write>(
    f: &mut fmt::Formatter<W>,
    margin: usize,
    line: usize,
    excerpt: &Excerpt<'_>,
) -> fmt::Result
    ensures { WritesOnOk W.write_str_gives f.old result (spec.marked margin line (part_in excerpt.now)) f.new }
{
    write_bar(f, margin)?;
    write!(f, "\n {line} |")?;
    write_excerpt(f, excerpt)?;
    write_bar(f, margin)?;
    write_mark(f, excerpt)
}

/// Writes the part of a line, and the end of the line.
#[tactic(auto, unfolding(crate::specs::Printed::excerpt))]
fn write_excerpt<W: fmt::Write>(f: &mut fmt::Formatter<W>, excerpt: &Excerpt<'_>) -> fmt::Result
    ensures { WritesOnOk W.write_str_gives f.old result (spec.excerpt (part_in excerpt.now)) f.new }
{
    f.write_str(space_before(excerpt))?;
    f.write_str(dots_if(excerpt.is_cut_before))?;
    Escape::Terminal.write(f, excerpt.before)?;
    Escape::Terminal.write(f, excerpt.after)?;
    f.write_str(dots_if(excerpt.is_cut_after))?;
    f.write_str("\n")
}

/// Returns a space if the part of a line is not empty.
fn space_before(excerpt: &Excerpt<'_>) -> &'static str
    ensures { result.now ≡ spec.space_before (part_in excerpt.now) }
{
    if excerpt.before.is_empty() && excerpt.after.is_empty() {
        ""
    } else {
        " "
    }
}

/// Returns three dots if a line is cut.
fn dots_if(is_cut: bool) -> &'static str
    ensures { result.now ≡ spec.dots_if is_cut }
{
    if is_cut { "..." } else { "" }
}

/// Returns the space below what is before the part of a line.
fn blank_before(is_cut: bool) -> &'static str
    ensures { result.now ≡ spec.blank_before is_cut }
{
    if is_cut { "    " } else { " " }
}

/// Writes the mark below the point.
#[tactic(auto, unfolding(crate::specs::Printed::mark))]
fn write_mark<W: fmt::Write>(f: &mut fmt::Formatter<W>, excerpt: &Excerpt<'_>) -> fmt::Result
    ensures { WritesOnOk W.write_str_gives f.old result (spec.mark (part_in excerpt.now)) f.new }
{
    f.write_str(blank_before(excerpt.is_cut_before))?;
    Escape::Blank.write(f, excerpt.before)?;
    f.write_str("^\n")
}

/// Writes the location as a JSON Pointer, if there is one.
#[tactic(auto, unfolding(crate::specs::Printed::place_line))]
fn write_place<W: fmt::Write>(
    f: &mut fmt::Formatter<W>,
    margin: usize,
    place: &Option<Vec<PlaceStep>>,
) -> fmt::Result
    ensures { WritesOnOk W.write_str_gives f.old result (spec.place_line margin (option_map (λ p. p.items) place.now)) f.new }
{
    let Some(place) = place else {
        return Ok(());
    };
    write_spaces(f, margin)?;
    f.write_str(" = pointer: ")?;
    write_steps(f, place.as_slice())?;
    f.write_str("\n")
}

/// Writes a location as a JSON Pointer, and a word for that of the root.
fn write_steps<W: fmt::Write>(f: &mut fmt::Formatter<W>, place: &[PlaceStep]) -> fmt::Result
    ensures { WritesOnOk W.write_str_gives f.old result (spec.steps_or_root place.now) f.new }
{
    if place.is_empty() {
        f.write_str("(root)")
    } else {
        Escape::Terminal.write_pointer(f, place)
    }
}

/// Writes the help text, if there is one.
#[tactic(auto, unfolding(crate::specs::Printed::help_line))]
fn write_help<W: fmt::Write>(
    f: &mut fmt::Formatter<W>,
    margin: usize,
    help: &Option<String>,
) -> fmt::Result
    ensures { WritesOnOk W.write_str_gives f.old result (spec.help_line margin (option_map string_bytes help.now)) f.new }
{
    let Some(help) = help else {
        return Ok(());
    };
    write_spaces(f, margin)?;
    f.write_str(" = help: ")?;
    Escape::Terminal.write(f, help.as_str())?;
    f.write_str("\n")
}

/// Writes the bar beside the lines of the text.
#[tactic(auto, unfolding(crate::specs::Printed::bar))]
fn write_bar<W: fmt::Write>(f: &mut fmt::Formatter<W>, margin: usize) -> fmt::Result
    ensures { WritesOnOk W.write_str_gives f.old result (spec.bar margin) f.new }
{
    write_spaces(f, margin)?;
    f.write_str(" |")
}

/// Writes spaces.
fn write_spaces<W: fmt::Write>(f: &mut fmt::Formatter<W>, count: usize) -> fmt::Result
    ensures { WritesOnOk W.write_str_gives f.old result (replicate count 32) f.new }
{
    for _i in 0..count {
        f.write_str(" ")?;
    }
    Ok(())
}
