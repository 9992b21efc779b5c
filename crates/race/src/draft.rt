//! Rows by chance, whose bounds are kept by values that are chosen first.

use crate::fault::Fault;
use crate::system::{System, times};
use std::alloc::Global;
use tableau::Entry;

/// Holds a value of each variable, the entries of the row that is next with its value, and a sequence that looks random.
#[derive(Drop)]
pub(crate) struct Draft {
    values: Vec<i64>,
    entries: Vec<Entry>,
    value: i64,
    seed: u64,
}

impl Draft {
    /// Makes one without variables and entries.
    pub(crate) fn new(alloc: Global) -> Draft {
        Draft {
            values: Vec::new(alloc),
            entries: Vec::new(alloc),
            value: 0,
            seed: 1,
        }
    }

    /// Gives a number below a count, which is above 0, that looks chosen at random.
    fn any(&mut self, count: u32) -> u32 {
        self.seed = self
            .seed
            .wrapping_mul(6_364_136_223_846_793_005)
            .wrapping_add(1_442_695_040_888_963_407);
        (self.seed >> 32) as u32 % count.max(1)
    }

    /// Adds so many variables to a system, which are at least 0. Their values are from 0 to 9.
    pub(crate) fn add_vars(&mut self, system: &mut System, count: u64) -> Result<(), Fault> {
        for _ in 0..count {
            let variable = system.add_var()?;
            system.at_least(variable, 0)?;
            let value = self.any(10);
            self.values.push(i64::from(value))?;
        }
        Ok(())
    }

    /// Adds a multiple of a variable to the next row.
    pub(crate) fn add(&mut self, coefficient: i64, variable: u64) -> Result<(), Fault> {
        let Some(value) = self.values.get(variable as usize) else {
            return Err(Fault::Refused);
        };
        let product = coefficient.saturating_mul(*value);
        self.value = self.value.saturating_add(product);
        self.entries.push(times(coefficient, variable))?;
        Ok(())
    }

    /// Adds a multiple of a variable to the next row, from -5 to 5 times it and not 0 times.
    pub(crate) fn add_multiple(&mut self, variable: u64) -> Result<(), Fault> {
        let size = i64::from(self.any(5)) + 1;
        let coefficient = if self.any(2) == 0 { size } else { -size };
        self.add(coefficient, variable)
    }

    /// Adds such a multiple of one of the first variables to the next row.
    pub(crate) fn add_some(&mut self, variables: u32) -> Result<(), Fault> {
        let variable = self.any(variables);
        self.add_multiple(u64::from(variable))
    }

    /// Adds the next row to a system. Gives its variable and its value, and begins anew.
    fn add_row(&mut self, system: &mut System) -> Result<(u64, i64), Fault> {
        let row = system.add_row(&self.entries)?;
        let value = self.value;
        self.entries.clear();
        self.value = 0;
        Ok((row, value))
    }

    /// Adds the next row to a system. It is at most its value.
    pub(crate) fn add_most(&mut self, system: &mut System) -> Result<(), Fault> {
        let (row, value) = self.add_row(system)?;
        system.at_most(row, value)
    }

    /// Adds the next row to a system. It is at least its value, or equal to it.
    pub(crate) fn add_sum(&mut self, system: &mut System, equal: bool) -> Result<(), Fault> {
        let (row, value) = self.add_row(system)?;
        if equal {
            system.at_most(row, value)?;
        }
        system.at_least(row, value)
    }
}
