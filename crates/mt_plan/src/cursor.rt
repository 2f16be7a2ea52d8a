//! The steps of an algorithm, one after another.

ghost use Rattle.std.specs.Prelude.{◌≡◌, ◌≤◌, ◌<◌, ◌+◌, ◌*◌, slice_get, Some, length, true};
ghost use Rattle.mt_plan.specs.Plan.{IsAccepted, steps_of};
ghost use Rattle.mt_plan.specs.Cursor.{IsCursor, IsLineOn, IsMarch, Continues, Stands, begins_span, cells_of, element_under, is_on_cell, line_under, made_by, span_of};
ghost use Rattle.mt_plan.specs.Rows.{part_count};

use crate::algorithm::{Algorithm, Step};
use crate::line::Line;
use crate::place::Place;
use crate::rows::{cell_of, element_at, line_at, load_element, part_count, row_count};
use mt_march::Element;

/// A cursor over the steps of an algorithm on the cells of a slice.
/// What the steps of a row need is worked out when the row begins, so that a step is one look at the row and a count.
#[derive(Drop)]
pub struct Steps {
    n: u32,
    made: u32,
    place: Place,
    rows: u32,
    row_end: u32,
    line: Line,
    element: Element,
}

impl Steps {
    /// A cursor before the first step on n cells. Each later call takes the same algorithm.
    pub fn new(algorithm: &Algorithm, n: u32) -> Steps
        requires accepted { IsAccepted algorithm.now }
        requires some { 1 ≤ n }
        requires small { n ≤ 64 }
        ensures cursor { IsCursor algorithm.now result }
        ensures cells { cells_of result ≡ n }
        ensures made { made_by result ≡ 0 }
    {
        let element = element_at(algorithm, 0);
        let line = line_at(algorithm, n, 0, 0, &element);
        Steps {
            n,
            made: 0,
            place: Place {
                part: 0,
                row: 0,
                at: 0,
            },
            rows: row_count(algorithm, n),
            row_end: line.len(&element, n),
            line,
            element,
        }
    }

    /// How many steps were handed out.
    pub fn made(&self) -> u32
        ensures { result ≡ made_by self.now }
    {
        self.made
    }

    /// The next step, of which one has to be left. The cursor stays before it.
    #[inline(always)]
    pub fn peek(&self, _algorithm: &Algorithm) -> Step
        requires cursor { IsCursor _algorithm.now self.now }
        requires left { made_by self.now < length (steps_of _algorithm.now (cells_of self.now)) }
        ensures step { slice_get (steps_of _algorithm.now (cells_of self.now)) (made_by self.now) ≡ Some result }
        ensures inside { result.cell < cells_of self.now }
    {
        self.line.step(&self.element, self.n, self.place.at)
    }

    /// Goes one step on. One has to be left.
    #[inline(always)]
    pub fn advance(&mut self, algorithm: &Algorithm)
        requires cursor { IsCursor algorithm.now self.old }
        requires left { made_by self.old < length (steps_of algorithm.now (cells_of self.old)) }
        ensures cursor { IsCursor algorithm.now self.new }
        ensures cells { cells_of self.new ≡ cells_of self.old }
        ensures made { made_by self.new ≡ made_by self.old + 1 }
    {
        self.go_on(algorithm);
    }

    /// The next step, of which one has to be left, and goes on.
    #[inline(always)]
    pub fn next(&mut self, algorithm: &Algorithm) -> Step
        requires cursor { IsCursor algorithm.now self.old }
        requires left { made_by self.old < length (steps_of algorithm.now (cells_of self.old)) }
        ensures step { slice_get (steps_of algorithm.now (cells_of self.old)) (made_by self.old) ≡ Some result }
        ensures inside { result.cell < cells_of self.old }
        ensures cursor { IsCursor algorithm.now self.new }
        ensures cells { cells_of self.new ≡ cells_of self.old }
        ensures made { made_by self.new ≡ made_by self.old + 1 }
    {
        let step = self.peek(algorithm);
        self.advance(algorithm);
        step
    }

    /// The line under way.
    #[inline(always)]
    pub fn line(&self, _algorithm: &Algorithm) -> Line
        requires cursor { IsCursor _algorithm.now self.now }
        requires left { made_by self.now < length (steps_of _algorithm.now (cells_of self.now)) }
        ensures line { result ≡ line_under self.now }
        ensures inside { IsLineOn (cells_of self.now) result }
        ensures march { is_on_cell result ≡ true → IsMarch _algorithm.now }
    {
        self.line
    }

    /// The element under way, where the algorithm is a march.
    #[inline(always)]
    pub fn element(&self) -> &Element
        ensures { result.now ≡ element_under self.now }
    {
        &self.element
    }

    /// Whether a span begins here: steps that loops make at once, which are a row, or an element on all cells.
    #[inline(always)]
    pub fn begins_span(&self, _algorithm: &Algorithm) -> bool
        requires cursor { IsCursor _algorithm.now self.now }
        requires left { made_by self.now < length (steps_of _algorithm.now (cells_of self.now)) }
        ensures begins { result ≡ begins_span self.now }
        ensures next { result ≡ true
            → Continues (steps_of _algorithm.now (cells_of self.now)) (made_by self.now) (span_of self.now) }
    {
        if self.line.is_on_cell() {
            self.place.row == 0 && self.place.at == 0
        } else {
            self.place.at == 0
        }
    }

    /// How many steps the span has.
    #[inline(always)]
    pub fn span_len(&self, _algorithm: &Algorithm) -> u32
        requires cursor { IsCursor _algorithm.now self.now }
        requires left { made_by self.now < length (steps_of _algorithm.now (cells_of self.now)) }
        ensures len { result ≡ length (span_of self.now) }
        ensures some { 1 ≤ result }
    {
        if self.line.is_on_cell() {
            self.n * self.row_end
        } else {
            self.row_end
        }
    }

    /// Goes on behind the span that begins here.
    pub fn pass_span(&mut self, algorithm: &Algorithm)
        requires cursor { IsCursor algorithm.now self.old }
        requires left { made_by self.old < length (steps_of algorithm.now (cells_of self.old)) }
        requires begins { begins_span self.old ≡ true }
        ensures cursor { IsCursor algorithm.now self.new }
        ensures cells { cells_of self.new ≡ cells_of self.old }
        ensures made { made_by self.new ≡ made_by self.old + length (span_of self.old) }
    {
        if self.line.is_on_cell() {
            self.pass_rows(algorithm);
        } else {
            self.pass_row(algorithm);
        }
    }

    /// Goes on behind the row that begins here.
    fn pass_row(&mut self, algorithm: &Algorithm)
        requires cursor { Stands algorithm.now self.old }
        requires part { self.old.place.part < part_count algorithm.now }
        requires at { self.old.place.at ≡ 0 }
        ensures cursor { Stands algorithm.now self.new }
        ensures cells { self.new.n ≡ self.old.n }
        ensures made { self.new.made ≡ self.old.made + self.old.row_end }
    {
        let last = self.row_end - 1;
        self.made += last;
        self.place.at = last;
        self.go_on(algorithm);
    }

    /// Goes on behind the rows of the element that begins here.
    fn pass_rows(&mut self, algorithm: &Algorithm)
        requires cursor { Stands algorithm.now self.old }
        requires part { self.old.place.part < part_count algorithm.now }
        requires row { self.old.place.row ≡ 0 }
        requires at { self.old.place.at ≡ 0 }
        requires on { is_on_cell self.old.line ≡ true }
        ensures cursor { Stands algorithm.now self.new }
        ensures cells { self.new.n ≡ self.old.n }
        ensures made { self.new.made ≡ self.old.made + self.old.n * self.old.row_end }
    {
        let row = self.rows - 1;
        self.made += self.n * self.row_end - 1;
        self.place.row = row;
        self.place.at = self.row_end - 1;
        self.line = Line::OnCell {
            cell: cell_of(self.element.order, self.n, row),
        };
        self.begin_part(algorithm);
    }

    /// Goes one step on.
    #[inline(always)]
    fn go_on(&mut self, algorithm: &Algorithm)
        requires cursor { Stands algorithm.now self.old }
        requires part { self.old.place.part < part_count algorithm.now }
        ensures cursor { Stands algorithm.now self.new }
        ensures cells { self.new.n ≡ self.old.n }
        ensures made { self.new.made ≡ self.old.made + 1 }
    {
        if self.place.at + 1 < self.row_end {
            self.made += 1;
            self.place.at += 1;
        } else if self.place.row + 1 < self.rows {
            self.begin_row(algorithm);
        } else {
            self.begin_part(algorithm);
        }
    }

    /// Goes on to the next row of the part.
    #[inline(always)]
    fn begin_row(&mut self, algorithm: &Algorithm)
        requires cursor { Stands algorithm.now self.old }
        requires part { self.old.place.part < part_count algorithm.now }
        requires done { self.old.row_end ≤ self.old.place.at + 1 }
        requires more { self.old.place.row + 1 < self.old.rows }
        ensures cursor { Stands algorithm.now self.new }
        ensures cells { self.new.n ≡ self.old.n }
        ensures made { self.new.made ≡ self.old.made + 1 }
    {
        let Place { part, row, .. } = self.place;
        let row = row + 1;
        self.made += 1;
        self.place = Place { part, row, at: 0 };
        match self.line {
            Line::OnCell { .. } => {
                self.line = Line::OnCell {
                    cell: cell_of(self.element.order, self.n, row),
                };
            }
            Line::EachCell { .. } | Line::WalkBase { .. } | Line::GalpatBase { .. } => {
                self.line = line_at(algorithm, self.n, part, row, &self.element);
                self.row_end = self.line.len(&self.element, self.n);
            }
        }
    }

    /// Goes on to the first row of the next part, or behind the last part.
    fn begin_part(&mut self, algorithm: &Algorithm)
        requires cursor { Stands algorithm.now self.old }
        requires part { self.old.place.part < part_count algorithm.now }
        requires done { self.old.row_end ≤ self.old.place.at + 1 }
        requires last { self.old.rows ≤ self.old.place.row + 1 }
        ensures cursor { Stands algorithm.now self.new }
        ensures cells { self.new.n ≡ self.old.n }
        ensures made { self.new.made ≡ self.old.made + 1 }
    {
        let part = self.place.part + 1;
        self.made += 1;
        self.place = Place {
            part,
            row: 0,
            at: 0,
        };
        if part < part_count(algorithm) {
            load_element(&mut self.element, algorithm, part);
            self.line = line_at(algorithm, self.n, part, 0, &self.element);
            self.row_end = self.line.len(&self.element, self.n);
        }
    }
}
