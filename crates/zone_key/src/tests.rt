use crate::{Expr, ExprFault, Key, Pair, Part, Vars, compare, crc32, read_expr, value, word_of};
use sqlite_items::Items;
use std::alloc::{AllocError, Global};
use std::cmp::Ordering;
use std::test::Fail;
use zone_outside::{NoMemory, Text};

#[test]
fn hashes(rt: HostRuntime) {
    // the check value of CRC-32, no bytes, and two texts of five bytes with one CRC
    assert_eq!(rt; crc32(b"123456789"), 0xCBF4_3926);
    assert_eq!(rt; crc32(b""), 0);
    assert_eq!(rt;
        crc32(&[0x41, 0x06, 0x71, 0xDB, 0x01]),
        crc32(&[0, 0, 0, 0, 0])
    );
}

#[test]
fn reads_and_orders(rt: HostRuntime) -> Result<(), Fail> {
    let key = Key::of(rt.alloc(), b"123456789")?;
    assert_eq!(rt; key.len(), 9);
    assert_eq!(rt; (key.byte(0), key.byte(8)), (b'1', b'9'));
    assert_eq!(rt; word_of(&key, 0), 0x3837_3635_3433_3231);
    assert_eq!(rt; word_of(&key, 1), 0x39);
    assert_eq!(rt; word_of(&key, u64::MAX), 0);
    let longer = Key::of(rt.alloc(), b"1234567890")?;
    let later = Key::of(rt.alloc(), b"2")?;
    assert_eq!(rt; compare(&key, &longer), Ordering::Less);
    assert_eq!(rt; compare(&later, &longer), Ordering::Greater);
    assert_eq!(rt; compare(&key, &key), Ordering::Equal);
    Ok(())
}

/// The parts of an expression, one after another: plain text in quotes, a name behind `$`, `@` for the
/// address and `#` for its four octets.
fn shown(alloc: Global, expr: &Expr) -> Result<String, AllocError> {
    let mut shown = String::new(alloc);
    for part in expr.parts.as_slice() {
        match part {
            Part::Plain { text } => {
                shown.push('\'')?;
                push_bytes(&mut shown, text.bytes())?;
                shown.push('\'')?;
            }
            Part::Named { name } => {
                shown.push('$')?;
                push_bytes(&mut shown, name.bytes())?;
            }
            Part::Address => shown.push('@')?,
            Part::Binary => shown.push('#')?,
        }
    }
    Ok(shown)
}

fn push_bytes(shown: &mut String, bytes: &[u8]) -> Result<(), AllocError> {
    for byte in bytes {
        shown.push(char::from(*byte))?;
    }
    Ok(())
}

/// Texts of expressions with their parts, or `!` where they spell none; `~` between the two, `|` between rows.
const EXPRESSIONS: &str = "\
    a~'a'|$a~$a|${a}~$a|$~!|${~!|${}~!|${a~!|${a-}~!|$-~!|$$a~!|a$~!|\
    $remote_addr~@|$binary_remote_addr~#|${remote_addr}~@|${binary_remote_addr}~#|\
    $remote_addr2~$remote_addr2|$Remote_addr~$Remote_addr|x$remote_addr-y~'x'@'-y'|\
    $a$b~$a$b|$a.$b~$a'.'$b|${a}b~$a'b'|${a}{b}~$a'{b}'|{$a}~'{'$a'}'|$a{~$a'{'|a b~'a b'|\
    $0_Z9~$0_Z9|$a$~!|${a}${~!|a}~'a}'|\
    $a$b$c$d$e$f$g$h~$a$b$c$d$e$f$g$h|$a$b$c$d$e$f$g$h$i~!|$a-$b-$c-$d-~$a'-'$b'-'$c'-'$d'-'|$a-$b-$c-$d-$e~!";

#[test]
fn reads_expressions(rt: HostRuntime) -> Result<(), Fail> {
    let alloc = rt.alloc();
    assert!(rt; read_expr(alloc, &Text::of(alloc, b"")?).is_err());
    let mut rows = 0u64;
    for row in EXPRESSIONS.split('|') {
        let (text, wanted) = row.split_once('~').ok_or("a row has `~`")?;
        match read_expr(alloc, &Text::of(alloc, text.as_bytes())?) {
            Ok(expr) => assert_eq!(rt; shown(alloc, &expr)?.as_str(), wanted, "{text}"),
            Err(fault) => assert_eq!(rt; (fault, wanted), (ExprFault::BadKey, "!"), "{text}"),
        }
        rows = rows.saturating_add(1);
    }
    assert_eq!(rt; rows, 33);
    Ok(())
}

/// A pair of these texts.
fn pair(alloc: Global, name: &[u8], value: &[u8]) -> Result<Pair, NoMemory> {
    Ok(Pair {
        name: Text::of(alloc, name)?,
        value: Text::of(alloc, value)?,
    })
}

/// Texts of expressions with their values at the address 10.0.255.7, where `a` is `1`, then `2`, `b` is empty
/// and `A` is `3`.
const VALUES: &str = "\
    x~x|$remote_addr~10.0.255.7|$a~1|$b~|$c~|$A~3|$a-$b-$c-$remote_addr~1---10.0.255.7|${a}${a}$A~113";

#[test]
fn gives_values(rt: HostRuntime) -> Result<(), Fail> {
    let alloc = rt.alloc();
    let mut pairs = Items::new(alloc);
    pairs.push(pair(alloc, b"a", b"1")?)?;
    pairs.push(pair(alloc, b"a", b"2")?)?;
    pairs.push(pair(alloc, b"b", b"")?)?;
    pairs.push(pair(alloc, b"A", b"3")?)?;
    let vars = Vars {
        address: [10, 0, 255, 7],
        pairs,
    };
    let mut rows = 0u64;
    for row in VALUES.split('|') {
        let (text, wanted) = row.split_once('~').ok_or("a row has `~`")?;
        let expr = read_expr(alloc, &Text::of(alloc, text.as_bytes())?)?;
        let key = value(alloc, &expr, &vars)?;
        assert_eq!(rt; key.bytes(), wanted.as_bytes(), "{text}");
        rows = rows.saturating_add(1);
    }
    assert_eq!(rt; rows, 8);
    let expr = read_expr(alloc, &Text::of(alloc, b"$binary_remote_addr")?)?;
    let key = value(alloc, &expr, &vars)?;
    assert_eq!(rt; key.bytes(), [10, 0, 255, 7].as_slice());
    Ok(())
}
