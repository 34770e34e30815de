// The fields of a record, each read from the front of octets, with the octets behind it.
ghost use Rattle.std.specs.Prelude.{◌≡◌, true, option_map};
ghost use Rattle.scql_base.specs.Name.{is_name};
ghost use Rattle.scql_base.specs.Row.{is_narrow};
ghost use Rattle.scql_model.specs.Fields as fields;
ghost use Rattle.scql_model.specs.Records as records;

use scql_base::{Comparison, Name, Octets, Privileges, Profile, Subject};

// A text: a length in one octet, and so many octets.
fn text_at(octets: &[u8]) -> Option<(&[u8], &[u8])>
    ensures { option_map (λ x. (x.0.now, x.1.now)) result ≡ fields.text_at (λ text. true) octets.now }
{
    let [len, octets @ ..] = octets else {
        return None;
    };
    let len = *len as usize;
    if octets.len() < len {
        return None;
    }
    Some(octets.split_at(len))
}

pub(crate) fn name_at(octets: &[u8]) -> Option<(Name, &[u8])>
    ensures { option_map (λ x. (x.0, x.1.now)) result ≡ fields.text_at is_name octets.now }
{
    let (text, rest) = text_at(octets)?;
    let name = Name::read(text)?;
    Some((name, rest))
}

pub(crate) fn secret_at(octets: &[u8]) -> Option<(Octets<8>, &[u8])>
    ensures { option_map (λ x. (x.0, x.1.now)) result ≡ fields.text_at records.is_secret octets.now }
{
    let (text, rest) = text_at(octets)?;
    if !text.is_empty() && text.len() < 4 {
        return None;
    }
    let secret = Octets::of(text)?;
    Some((secret, rest))
}

pub(crate) fn value_at(octets: &[u8]) -> Option<(Octets<200>, &[u8])>
    ensures { option_map (λ x. (x.0, x.1.now)) result ≡ fields.text_at is_narrow octets.now }
{
    let (text, rest) = text_at(octets)?;
    let value = Octets::of(text)?;
    Some((value, rest))
}

pub(crate) fn profile_at(octets: &[u8]) -> Option<(Profile, &[u8])>
    ensures { option_map (λ x. (x.0, x.1.now)) result ≡ fields.letter_at records.profile_of octets.now }
{
    let [code, rest @ ..] = octets else {
        return None;
    };
    let profile = Profile::of(*code)?;
    Some((profile, rest))
}

pub(crate) fn subject_at(octets: &[u8]) -> Option<(Subject, &[u8])>
    ensures { option_map (λ x. (x.0, x.1.now)) result ≡ fields.letter_at records.subject_of octets.now }
{
    let [code, rest @ ..] = octets else {
        return None;
    };
    let subject = Subject::of(*code)?;
    Some((subject, rest))
}

pub(crate) fn comparison_at(octets: &[u8]) -> Option<(Comparison, &[u8])>
    ensures { option_map (λ x. (x.0, x.1.now)) result ≡ fields.letter_at records.comparison_of octets.now }
{
    let [code, rest @ ..] = octets else {
        return None;
    };
    let comparison = Comparison::of(*code)?;
    Some((comparison, rest))
}

pub(crate) fn tries_at(octets: &[u8]) -> Option<(u8, &[u8])>
    ensures { option_map (λ x. (x.0, x.1.now)) result ≡ fields.octet_at records.is_tries octets.now }
{
    match octets {
        [tries @ 0..=3, rest @ ..] => Some((*tries, rest)),
        _ => None,
    }
}

pub(crate) fn privileges_at(octets: &[u8]) -> Option<(Privileges, &[u8])>
    ensures { option_map (λ x. (x.0, x.1.now)) result ≡ fields.octet_at records.is_privileges octets.now }
{
    match octets {
        [bits @ 1..=15, rest @ ..] => Some((Privileges { bits: *bits }, rest)),
        _ => None,
    }
}
