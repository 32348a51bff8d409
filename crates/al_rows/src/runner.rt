//! The rows of files, one after the other.

use crate::constants::Constants;
use crate::each::numbered;
use crate::escapes::add_escaped;
use crate::fault::Fault;
use crate::lines::{Line, numbers, take_line};
use crate::row::Row;
use crate::trial::{Outcome, outcome_of};
use std::alloc::Global;

#[derive(Drop)]
pub struct Runner {
    alloc: Global,
    constants: Constants,
    row: Row,
    /// What the row before left.
    before: Outcome,
    /// The numbers for which the next line is done.
    each: Option<(u64, u64)>,
    report: String,
    rows: u32,
    wrong: u32,
    line: u32,
}

impl Runner {
    pub fn new(alloc: Global) -> Runner {
        Runner {
            alloc,
            constants: Constants::new(alloc),
            row: Row::new(alloc),
            before: Outcome::none(alloc),
            each: None,
            report: String::new(alloc),
            rows: 0,
            wrong: 0,
            line: 0,
        }
    }

    /// A line for each row that came out otherwise.
    pub fn report(&self) -> &str {
        self.report.as_str()
    }

    pub fn rows(&self) -> u32 {
        self.rows
    }

    pub fn wrong(&self) -> u32 {
        self.wrong
    }

    /// The name of the row that is being read.
    pub fn row_name(&self) -> &str {
        self.row.name.as_str()
    }

    /// The number of the line that was read last.
    pub fn line(&self) -> u32 {
        self.line
    }

    /// Runs the rows of a file.
    pub fn take_file(&mut self, text: &str) -> Result<(), Fault> {
        self.line = 0;
        for line in text.lines() {
            self.line = self.line.saturating_add(1);
            if !line.is_empty() && !line.starts_with('#') {
                self.take(Line::of(line))?;
            }
        }
        self.end_row()
    }

    /// Does what the line says, for each number where it is behind such a line.
    fn take(&mut self, line: Line) -> Result<(), Fault> {
        match self.each.take() {
            Some((first, last)) => self.take_each(line, first, last),
            None => self.take_one(line),
        }
    }

    fn take_each(&mut self, line: Line, first: u64, last: u64) -> Result<(), Fault> {
        let up = last.saturating_sub(first);
        let down = first.saturating_sub(last);
        for step in 0..=up.max(down) {
            let number = first
                .saturating_add(step.min(up))
                .saturating_sub(step.min(down));
            let rest = numbered(self.alloc, line.rest, number)?;
            let verb = line.verb;
            let rest = rest.as_str();
            self.take_one(Line { verb, rest })?;
        }
        Ok(())
    }

    fn take_one(&mut self, line: Line) -> Result<(), Fault> {
        match line.verb {
            "row" => self.begin_row(line.rest),
            "each" => {
                self.each = Some(numbers(line.rest)?);
                Ok(())
            }
            "kept" => {
                let image = self.before.image.as_slice();
                self.row.journal.extend_from_slice(image)?;
                Ok(())
            }
            _ => take_line(self.alloc, &mut self.constants, &mut self.row, line),
        }
    }

    fn begin_row(&mut self, name: &str) -> Result<(), Fault> {
        self.end_row()?;
        if name.is_empty() {
            return Err(Fault::Form);
        }
        self.row.name.push_str(name)?;
        Ok(())
    }

    /// Runs the row, if there is one, so often as its first piece takes.
    fn end_row(&mut self) -> Result<(), Fault> {
        if !self.row.name.is_empty() {
            self.row.complete(self.alloc)?;
            self.rows = self.rows.saturating_add(1);
            self.run_row()?;
        }
        self.row = Row::new(self.alloc);
        Ok(())
    }

    fn run_row(&mut self) -> Result<(), Fault> {
        for run in 0..self.row.runs {
            if !self.is_right(self.row.piece.saturating_add(run))? {
                self.wrong = self.wrong.saturating_add(1);
                return self.tell(run);
            }
        }
        Ok(())
    }

    /// Whether the row comes out as it must, and keeps what it leaves.
    fn is_right(&mut self, piece: usize) -> Result<bool, Fault> {
        let outcome = outcome_of(self.alloc, &self.row, piece)?;
        let is_right = outcome.is_right(&self.row, &self.before);
        self.before = outcome;
        Ok(is_right)
    }

    /// Tells what came out of the row at this run of it.
    fn tell(&mut self, run: usize) -> Result<(), Fault> {
        let name = self.row.name.as_str();
        let status = self.before.status;
        let line = format!(in self.alloc; "row {name}: run {run}, status {status}, output ")?;
        self.report.push_str(line.as_str())?;
        add_escaped(self.before.output.as_slice(), &mut self.report)?;
        self.report.push_str(", image ")?;
        add_escaped(self.before.image.as_slice(), &mut self.report)?;
        self.report.push_str("\n")?;
        Ok(())
    }
}
