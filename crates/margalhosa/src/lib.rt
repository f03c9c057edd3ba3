// The operations of documents 01 and 02 for firmware in C: numbers, byte slices and structs with C's layout. include/margalhosa.h is the header.
// In each result `refused` is the documents' number of the refusal, 0 where nothing is refused, and `second` its second number: C has no Result.
#![tactic(auto)]

ghost use Rattle.std.specs.Prelude.{◌≡◌, ◌≤◌};
ghost use Rattle.refusals.specs.Refusals.{numbers, numbers_of};
ghost use Rattle.grid.specs.Record.{no_sheet, box_answer_of};
ghost use Rattle.grid.specs.Labelled.{labelled, label_place_of};
ghost use Rattle.path.specs.Reader.{read};
ghost use Rattle.path.specs.Answers.{sheet_answer, count_of};
ghost use Rattle.path.specs.Promises.{IsReading};
ghost use Rattle.path.specs.Label.{tabled};
ghost use Rattle.margalhosa.specs.Results.{setting_of, IsSheetResult, box_result, segment_result, IsSegmentResult, IsTextResult, count_result, IsRewriteResult, label_result, IsPartResult, order_by, IsOrderResult};

use chart::Setting;
use grid::{BoxRecord, SheetRecord, no_sheet};
use path::{LabelSpan, Pen, Segment};
use refusals::{Refusal, TextRefusal};
use signal::{NoOrder, Nodes};
use tables::Table;

// A sheet; refused, every field of it is 0.
#[repr(C)]
#[derive(Clone, Copy)]
pub struct SheetResult {
    pub refused: u32,
    pub second: u32,
    pub sheet: SheetRecord,
}

// A box of a sheet; refused, every field of it is 0.
#[repr(C)]
#[derive(Clone, Copy, Default)]
pub struct BoxResult {
    pub refused: u32,
    pub second: u32,
    pub place: BoxRecord,
}

// A segment: its kind is 0 a move, 1 a line, 2 a cubic, 3 a close. A move or a line goes to `to`, a cubic goes there by its two controls; the other positions are 0.
#[repr(C)]
#[derive(Clone, Copy, Default)]
pub struct SegmentResult {
    pub refused: u32,
    pub kind: u32,
    pub second: usize,
    pub control0: Pen,
    pub control1: Pen,
    pub to: Pen,
}

// How many bytes were written, or how many segments a text has; refused, 0.
#[repr(C)]
#[derive(Clone, Copy, Default)]
pub struct CountResult {
    pub refused: u32,
    pub second: usize,
    pub count: usize,
}

// A label's place, size and width; refused, all of them 0.
#[repr(C)]
#[derive(Clone, Copy, Default)]
pub struct LabelResult {
    pub refused: u32,
    pub second: u32,
    pub x: u32,
    pub y: u32,
    pub size: u32,
    pub width: u32,
}

// A label's text: the part of the chart, or where `fixed` is 1 of the table, that begins at `at` and has `len` bytes; refused, the empty one at the chart's start.
#[repr(C)]
#[derive(Clone, Copy, Default)]
pub struct PartResult {
    pub refused: u32,
    pub second: u32,
    pub fixed: u32,
    pub at: u32,
    pub len: u32,
}

// The signal order: the first `count` nodes are all of them in order, or those of a cycle (refused by 20); refused by another number there are none. Past them, 0.
#[repr(C)]
#[derive(Clone, Copy)]
pub struct OrderResult {
    pub refused: u32,
    pub second: u32,
    pub count: u8,
    pub nodes: [u8; 32],
}

// The number of a refusal.
fn first_of(why: Refusal) -> u32
    ensures { result ≡ (numbers_of why).first }
{
    why.numbers().first as u32
}

// Its second number.
fn second_of(why: Refusal) -> u32
    ensures { result ≡ (numbers_of why).second }
{
    why.numbers().second as u32
}

// The setting of a number: 0 is the default, any other is strict.
fn setting_of(number: u32) -> Setting
    ensures { result ≡ setting_of number }
{
    if number == 0 {
        return Setting::Default;
    }
    Setting::Strict
}

impl From<Result<Segment, TextRefusal>> for SegmentResult {
    ghost from_gives = { λ given r. r ≡ segment_result given };

    fn from(given: Result<Segment, TextRefusal>) -> Self {
        let none = SegmentResult::default();
        match given {
            Ok(Segment::Move(to)) => SegmentResult { to, ..none },
            Ok(Segment::Line(to)) => SegmentResult {
                kind: 1,
                to,
                ..none
            },
            Ok(Segment::Cubic(control0, control1, to)) => SegmentResult {
                kind: 2,
                control0,
                control1,
                to,
                ..none
            },
            Ok(Segment::Close) => SegmentResult { kind: 3, ..none },
            Err(why) => {
                let n = why.numbers();
                SegmentResult {
                    refused: n.first as u32,
                    second: n.second,
                    ..none
                }
            }
        }
    }
}

impl From<Result<usize, TextRefusal>> for CountResult {
    ghost from_gives = { λ counted r. r ≡ count_result counted };

    fn from(counted: Result<usize, TextRefusal>) -> Self {
        let none = CountResult::default();
        match counted {
            Ok(count) => CountResult { count, ..none },
            Err(why) => {
                let n = why.numbers();
                CountResult {
                    refused: n.first as u32,
                    second: n.second,
                    ..none
                }
            }
        }
    }
}

// The sheet of a chart at the origin x y, in a setting: 1 to 14.
#[unsafe(no_mangle)]
pub extern "C" fn margalhosa_sheet(chart: &[u8], x: u32, y: u32, setting: u32) -> SheetResult
    ensures { IsSheetResult (setting_of setting) chart.now x y result }
{
    match grid::sheet(chart, x, y, setting_of(setting)) {
        Ok(sheet) => SheetResult {
            refused: 0,
            second: 0,
            sheet,
        },
        Err(why) => SheetResult {
            refused: first_of(why),
            second: second_of(why),
            sheet: no_sheet(),
        },
    }
}

// Box k of a sheet: 14, 15.
#[unsafe(no_mangle)]
pub extern "C" fn margalhosa_box(sheet: SheetRecord, k: u32) -> BoxResult
    ensures { result ≡ box_result (box_answer_of sheet k) }
{
    match grid::box_of(&sheet, k as usize) {
        Ok(place) => BoxResult {
            place,
            ..BoxResult::default()
        },
        Err(why) => BoxResult {
            refused: first_of(why),
            second: second_of(why),
            ..BoxResult::default()
        },
    }
}

// Segment k of a sheet: 14, 15.
#[unsafe(no_mangle)]
pub extern "C" fn margalhosa_segment(sheet: SheetRecord, k: u32) -> SegmentResult
    ensures { IsSegmentResult k (sheet_answer sheet) result }
{
    path::sheet_segment(&sheet, k as usize).into()
}

// The whole text of a sheet, written at the buffer's start: 14, 16. Refused, nothing is written.
#[unsafe(no_mangle)]
pub extern "C" fn margalhosa_text(sheet: SheetRecord, buf: &mut [u8]) -> CountResult
    ensures { IsTextResult sheet buf.old result buf.new }
{
    path::write_sheet(&sheet, buf).into()
}

// Where label i of box k of the chart's sheet stands, its size and its width: 1 to 15.
#[unsafe(no_mangle)]
pub extern "C" fn margalhosa_label_place(
    chart: &[u8],
    x: u32,
    y: u32,
    setting: u32,
    table: &[u8],
    k: u32,
    i: u32,
) -> LabelResult
    ensures { result ≡ label_result (label_place_of (tabled table.now (labelled (setting_of setting) chart.now x y k i))) }
{
    match path::label_place(
        chart,
        x,
        y,
        setting_of(setting),
        table,
        k as usize,
        i as usize,
    ) {
        Ok(l) => LabelResult {
            x: l.x,
            y: l.y,
            size: l.size,
            width: l.width,
            ..LabelResult::default()
        },
        Err(why) => LabelResult {
            refused: first_of(why),
            second: second_of(why),
            ..LabelResult::default()
        },
    }
}

// The text of that label: 1 to 15.
#[unsafe(no_mangle)]
pub extern "C" fn margalhosa_label_part(
    chart: &[u8],
    x: u32,
    y: u32,
    setting: u32,
    table: &[u8],
    k: u32,
    i: u32,
) -> PartResult
    ensures { IsPartResult chart.now table.now (labelled (setting_of setting) chart.now x y k i) result }
{
    match path::label_span(
        chart,
        x,
        y,
        setting_of(setting),
        table,
        k as usize,
        i as usize,
    ) {
        Ok(LabelSpan::InChart { at, len }) => PartResult {
            at,
            len,
            ..PartResult::default()
        },
        Ok(LabelSpan::InTable { at, len }) => PartResult {
            fixed: 1,
            at,
            len,
            ..PartResult::default()
        },
        Err(why) => PartResult {
            refused: first_of(why),
            second: second_of(why),
            ..PartResult::default()
        },
    }
}

// How many segments a path text has: 17 to 19.
#[unsafe(no_mangle)]
pub extern "C" fn margalhosa_text_count(text: &[u8]) -> CountResult
    ensures count { result ≡ count_result (count_of (read text.now)) }
    ensures reading { IsReading text.now }
{
    path::text_count(text).into()
}

// Segment k of a path text: 17 to 19, then 15.
#[unsafe(no_mangle)]
pub extern "C" fn margalhosa_text_segment(text: &[u8], k: u32) -> SegmentResult
    ensures segment { IsSegmentResult k (read text.now) result }
    ensures reading { IsReading text.now }
{
    path::text_segment(text, k as usize).into()
}

// A path text read and written again, at the buffer's start: 17 to 19, then 16. Refused, nothing is written.
#[unsafe(no_mangle)]
pub extern "C" fn margalhosa_rewrite(text: &[u8], buf: &mut [u8]) -> CountResult
    ensures written { IsRewriteResult text.now buf.old result buf.new }
    ensures reading { IsReading text.now }
{
    path::rewrite(text, buf).into()
}

// Nodes, with the two numbers of a refusal or 0 0.
fn order_by(first: u32, second: u32, t: &Nodes) -> OrderResult
    requires few { t.now.count ≤ 32 }
    ensures { result ≡ order_by (numbers first second) t.now }
{
    OrderResult {
        refused: first,
        second,
        count: t.count as u8,
        nodes: t.items,
    }
}

// The signal order of a chart's nodes: 1 to 12, then 20 with a cycle. The chart is read in the strict setting.
#[unsafe(no_mangle)]
pub extern "C" fn margalhosa_signal_order(chart: &[u8]) -> OrderResult
    ensures { IsOrderResult chart.now result }
{
    match signal::signal_order(chart) {
        Ok(t) => order_by(0, 0, &t),
        Err(why) => {
            let n = why.numbers();
            let nodes = match why {
                NoOrder::Cycle(t) => t,
                NoOrder::Refused(_) => Table::empty(0),
            };
            order_by(n.first as u32, n.second as u32, &nodes)
        }
    }
}
