//! Numbers, sites and statements by chance.

use std::alloc::Global;
use terms::memory::Memory;
use terms::text::Text;

/// Numbers by chance, each made of the one before it.
#[derive(Drop)]
pub(crate) struct Chance {
    pub(crate) last: u64,
}

impl Chance {
    /// The next number, below this one.
    pub(crate) fn below(&mut self, bound: u64) -> u64 {
        let next = self.last.wrapping_mul(6364136223846793005);
        self.last = next.wrapping_add(1442695040888963407);
        (self.last >> 33).checked_rem(bound).unwrap_or(0)
    }

    /// Whether something comes to pass that does so this often in a hundred times.
    pub(crate) fn is_met(&mut self, often: u64) -> bool {
        self.below(100) < often
    }

    pub(crate) fn site(&mut self) -> &'static str {
        if self.is_met(50) { "north" } else { "south" }
    }

    pub(crate) fn statement(&mut self, alloc: Global) -> Result<Text, Memory> {
        let (key, dept, pay) = (self.below(5), self.below(14), self.below(20));
        let text = match self.below(10) {
            0 => format!(in alloc; "SELECT id, dept, pay FROM emp WHERE id = {key}"),
            1 => format!(in alloc; "SELECT name FROM emp WHERE pay >= {pay}"),
            2 => format!(in alloc;
                "SELECT emp.id, dept.title FROM emp JOIN dept ON emp.dept = dept.no WHERE emp.pay >= {pay}"
            ),
            3 => format!(in alloc; "UPDATE emp SET dept = {dept} WHERE id = {key}"),
            4 => format!(in alloc; "UPDATE emp SET pay = pay + {pay}"),
            5 => format!(in alloc; "UPDATE emp SET name = 'n{pay}' WHERE id = {key}"),
            6 => format!(in alloc; "UPDATE dept SET title = 't{pay}' WHERE no >= {dept}"),
            7 => format!(in alloc; "SELECT title FROM dept WHERE no = {dept}"),
            8 => format!(in alloc; "INSERT INTO emp VALUES ({key}, 'i', {dept}, {pay})"),
            _ => format!(in alloc; "DELETE FROM emp WHERE dept < {dept} AND id = {key}"),
        }?;
        Text::new(text)
    }
}
