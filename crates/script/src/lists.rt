// The rules of the grammar that stand for parts of a statement: names, literals, lists, conditions, changes, privileges.
ghost use Rattle.std.specs.Prelude.{◌≡◌, ◌<◌, ◌≤◌, ◌+◌, [], IfSome, bit_or, length, map, option_map};
ghost use Rattle.std.specs.List.{list_any};
ghost use Rattle.std.specs.Str.{bytes_eq};
ghost use Rattle.script.specs.Grammar as grammar;
ghost use Rattle.script.specs.Meanings.{is_among};

use crate::literal::literal_of;
use crate::tokens::Tokens;
use crate::words::{comparison_of, privilege_of};
use scql_base::{Change, Changes, Condition, Conditions, Name, NameList, Octets, Privileges};

impl<'a> Tokens<'a> {
    /// Goes past the next token, which has to be a name: any other is at fault.
    #[tactic(auto, unfolding(crate::specs::Grammar::name, crate::specs::Reading::one))]
    pub fn name(&mut self) -> Option<Name>
        ensures { grammar.name self.old ≡ (result, self.new) }
    {
        let name = Name::read(self.next())?;
        self.skip();
        Some(name)
    }

    #[tactic(auto, unfolding(crate::specs::Grammar::literal, crate::specs::Reading::one))]
    pub(crate) fn literal(&mut self) -> Option<Octets<200>>
        ensures { grammar.literal self.old ≡ (result, self.new) }
    {
        let literal = literal_of(self.next())?;
        self.skip();
        Some(literal)
    }

    #[tactic(auto, unfolding(crate::specs::Grammar::with_name, crate::specs::Reading::one))]
    fn with_name(&mut self, mut names: NameList) -> Option<NameList>
        requires { length names < 15 }
        ensures value { grammar.with_name names self.old ≡ (result, self.new) }
        ensures grown { IfSome result (λ longer. length longer ≡ length names + 1) }
    {
        if has_name(&names, self.next()) {
            return None;
        }
        let name = Name::read(self.next())?;
        self.skip();
        names.push(name).ok()?;
        Some(names)
    }

    /// One to 15 names, all different.
    pub(crate) fn names(&mut self) -> Option<NameList>
        ensures { grammar.names self.old ≡ (result, self.new) }
    {
        let mut names = self.with_name(NameList::new())?;
        while names.len() < 15 && self.takes(b",") {
            names = self.with_name(names)?;
        }
        Some(names)
    }

    /// The columns that are named, or none for all of an object.
    #[tactic(auto, unfolding(crate::specs::Grammar::columns))]
    pub(crate) fn columns(&mut self) -> Option<NameList>
        ensures { grammar.columns self.old ≡ (result, self.new) }
    {
        if self.takes(b"*") {
            Some(NameList::new())
        } else {
            self.names()
        }
    }

    #[tactic(auto, unfolding(crate::specs::Grammar::with_condition, crate::specs::Reading::one))]
    fn with_condition(&mut self, conditions: &mut Conditions) -> Option<()>
        requires { length conditions.old < 8 }
        ensures value { grammar.with_condition conditions.old self.old ≡ (option_map (λ _. conditions.new) result, self.new) }
        ensures grown { IfSome result (λ _. length conditions.new ≡ length conditions.old + 1) }
    {
        let column = self.name()?;
        let comparison = comparison_of(self.next())?;
        self.skip();
        let value = self.literal()?;
        let condition = Condition {
            column,
            comparison,
            value,
        };
        conditions.push(condition).ok()
    }

    fn conditions(&mut self, conditions: &mut Conditions) -> Option<()>
        requires { conditions.old ≡ [] }
        ensures { grammar.conditions self.old ≡ (option_map (λ _. conditions.new) result, self.new) }
    {
        self.with_condition(conditions)?;
        while conditions.len() < 8 && self.takes(b"AND") {
            self.with_condition(conditions)?;
        }
        Some(())
    }

    /// The conditions behind WHERE, or none where there is no WHERE.
    #[tactic(auto, unfolding(crate::specs::Grammar::where_conditions))]
    pub(crate) fn where_conditions(&mut self, conditions: &mut Conditions) -> Option<()>
        requires { conditions.old ≡ [] }
        ensures { grammar.where_conditions self.old ≡ (option_map (λ _. conditions.new) result, self.new) }
    {
        if self.takes(b"WHERE") {
            self.conditions(conditions)
        } else {
            Some(())
        }
    }

    #[tactic(auto, unfolding(crate::specs::Grammar::with_change, crate::specs::Reading::one))]
    fn with_change(&mut self, changes: &mut Changes) -> Option<()>
        requires { length changes.old < 15 }
        ensures value { grammar.with_change changes.old self.old ≡ (option_map (λ _. changes.new) result, self.new) }
        ensures grown { IfSome result (λ _. length changes.new ≡ length changes.old + 1) }
    {
        if changes_name(changes, self.next()) {
            return None;
        }
        let column = Name::read(self.next())?;
        self.skip();
        self.expect(b"=")?;
        let value = self.literal()?;
        changes.push((column, value)).ok()
    }

    /// One to 15 changes, of columns that are all different.
    pub(crate) fn changes(&mut self, changes: &mut Changes) -> Option<()>
        requires { changes.old ≡ [] }
        ensures { grammar.changes self.old ≡ (option_map (λ _. changes.new) result, self.new) }
    {
        self.with_change(changes)?;
        while changes.len() < 15 && self.takes(b",") {
            self.with_change(changes)?;
        }
        Some(())
    }

    #[tactic(auto, unfolding(crate::specs::Grammar::with_privilege, crate::specs::Reading::one))]
    fn with_privilege(&mut self, bits: u8) -> Option<u8>
        requires { bits ≤ 15 }
        ensures value { grammar.with_privilege bits self.old ≡ (result, self.new) }
        ensures some { IfSome result (λ bits. (1 ≤ bits) × (bits ≤ 15)) }
    {
        let bit = privilege_of(self.next())?;
        self.skip();
        Some(joined(bits, bit))
    }

    /// One or more privileges.
    pub(crate) fn privileges(&mut self) -> Option<Privileges>
        ensures { grammar.privileges self.old ≡ (result, self.new) }
    {
        let mut bits = self.with_privilege(0)?;
        let mut count = 1;
        while count < MOST_PRIVILEGES && self.takes(b",") {
            bits = self.with_privilege(bits)?;
            count += 1;
        }
        Some(Privileges { bits })
    }
}

// More than a line has room for.
const MOST_PRIVILEGES: usize = 500;

fn joined(bits: u8, bit: u8) -> u8
    requires several { bits ≤ 15 }
    requires one { (1 ≤ bit) × (bit ≤ 8) }
    ensures value { result ≡ bit_or bits bit }
    ensures some { 1 ≤ result }
    ensures within { result ≤ 15 }
{
    bits | bit
}

fn has_name(names: &NameList, octets: &[u8]) -> bool
    ensures { result ≡ is_among octets.now names.now }
{
    names.as_slice().iter().any(|name| name.octets() == octets)
}

fn changes_name(changes: &Changes, octets: &[u8]) -> bool
    ensures { result ≡ is_among octets.now (map (λ change. change.0) changes.now) }
{
    are_changes_of(changes.as_slice(), octets)
}

fn are_changes_of(changes: &[Change], octets: &[u8]) -> bool
    ensures { result ≡ list_any (λ change. bytes_eq change.pair.0 octets.now) changes.now }
{
    changes
        .iter()
        .any(|change| change.pair.0.octets() == octets)
}
