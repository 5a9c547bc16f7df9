ghost use Rattle.std.specs.Prelude.{◌≡◌, ◌++◌, OnOk, IfOk};
ghost use Rattle.zone_key.specs.Value.{dotted, named_value, part_value, value_of};

use crate::expr::{Expr, Part};
use crate::key::Key;
use itoa::Buffer;
use sqlite_items::Items;
use std::alloc::{AllocError, Global};
use zone_outside::{NoMemory, Text};

/// A variable's name and its value.
#[derive(Debug, Drop)]
pub struct Pair {
    /// The name, without `$`.
    pub name: Text,
    /// The value, of any bytes.
    pub value: Text,
}

/// What a request gives to the variables of key expressions.
#[derive(Debug, Drop)]
pub struct Vars {
    /// The four octets of the client's address, the first one first.
    pub address: [u8; 4],
    /// The other variables. Of several pairs of one name the first counts.
    pub pairs: Items<Pair>,
}

/// Adds an address in dotted decimal.
fn push_dotted(bytes: &mut Vec<u8>, address: &[u8; 4]) -> Result<(), AllocError>
    ensures { OnOk result (bytes.new.items ≡ bytes.old.items ++ dotted address.now) }
{
    for (i, octet) in address.iter().enumerate() {
        if i > 0 {
            bytes.push(b'.')?;
        }
        bytes.extend_from_slice(Buffer::new().format(*octet).as_bytes())?;
    }
    Ok(())
}

/// The value of the first pair of a name, or no bytes where there is none.
fn named_value<'a>(pairs: &'a [Pair], name: &Text) -> &'a [u8]
    ensures { result.now ≡ named_value name.now pairs.now }
{
    match pairs.iter().find(|pair| pair.name.bytes() == name.bytes()) {
        Some(pair) => pair.value.bytes(),
        None => &[],
    }
}

/// Adds the value of a part.
fn push_value(bytes: &mut Vec<u8>, part: &Part, vars: &Vars) -> Result<(), AllocError>
    ensures { OnOk result (bytes.new.items ≡ bytes.old.items ++ part_value vars.now part.now) }
{
    match part {
        Part::Plain { text } => bytes.extend_from_slice(text.bytes()),
        Part::Named { name } => bytes.extend_from_slice(named_value(vars.pairs.as_slice(), name)),
        Part::Address => push_dotted(bytes, &vars.address),
        Part::Binary => bytes.extend_from_slice(&vars.address),
    }
}

/// The value of a key expression: the values of its parts one after another. `$remote_addr` is the address in
/// dotted decimal, `$binary_remote_addr` its four octets, and a variable of another name has the value of the
/// first pair of that name, compared byte for byte, or no bytes where there is none. It fails only where there
/// is no memory for the value.
pub fn value(alloc: Global, expr: &Expr, vars: &Vars) -> Result<Key, NoMemory>
    ensures { IfOk result (λ key. key ≡ value_of expr.now.parts vars.now) }
{
    let mut bytes = Vec::new(alloc);
    for part in expr.parts.as_slice() {
        push_value(&mut bytes, part, vars)?;
    }
    Ok(Key::from_vec(bytes))
}
