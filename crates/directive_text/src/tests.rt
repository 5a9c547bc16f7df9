use crate::{Directive, TextFault, read};
use std::alloc::{AllocError, Global};

/// Texts with what they say, `~` between the two and `|` between cases: each directive as its line, its words
/// in brackets, and `;` or its block; or `!`, the kind and the line of the first fault.
const CASES: &str = "\
    ~|\
    \x20\t\r\n~|\
    # c~|\
    # c\n  # d\n~|\
    a;~1[a];|\
    a b c;~1[a][b][c];|\
    \n\na\nb;~3[a][b];|\
    a;b;~1[a];1[b];|\
    a{}~1[a]{}|\
    a {b;}~1[a]{1[b];}|\
    a b{c{d;}e;}\nf;~1[a][b]{1[c]{1[d];}1[e];}2[f];|\
    a{}b;~1[a]{}1[b];|\
    a\r\nb;\r\n~1[a][b];|\
    a;\r\nb;~1[a];2[b];|\
    a\tb\rc\nd;~1[a][b][c][d];|\
    a\x0bb;~1[a\x0bb];|\
    a)b;~1[a)b];|\
    a#b;~1[a#b];|\
    a #b;\nc;~1[a][c];|\
    a;#b~1[a];|\
    a;# {;\"\nb;~1[a];2[b];|\
    a{#}\n}~1[a]{}|\
    a\"b';~1[a\"b'];|\
    a};~1[a}];|\
    \"a b\";~1[a b];|\
    'a b' c;~1[a b][c];|\
    \"a'b\";~1[a'b];|\
    'a\"b';~1[a\"b];|\
    \"a;{}#\n\" b;~1[a;{}#\n][b];|\
    x \"a\nb\" c;\nd;~1[x][a\nb][c];3[d];|\
    \n \"a\nb\";~2[a\nb];|\
    \"\";~1[];|\
    \"\" '';~1[][];|\
    \"a\"{}~1[a]{}|\
    \"a\"\t;~1[a];|\
    \"a\"\nb;~1[a][b];|\
    \"a\")b;~1[a][)b];|\
    \"a\") {}~1[a][)]{}|\
    a$b{}~1[a$b]{}|\
    ${a} b;~1[${a}][b];|\
    ${{{a;~1[${{{a];|\
    $${a;~1[$${a];|\
    a${b}{}~1[a${b}]{}|\
    a$;~1[a$];|\
    $ {}~1[$]{}|\
    \\${}~1[\\$]{}|\
    \\\\${a;~1[\\${a];|\
    $\\{a;~1[$\\{a];|\
    $\\a{}~1[$\\a]{}|\
    \"$\"{}~1[$]{}|\
    \"${\";~1[${];|\
    a\\\"b;~1[a\"b];|\
    a\\'b;~1[a'b];|\
    a\\\\b;~1[a\\b];|\
    a\\tb\\rc\\nd;~1[a\tb\rc\nd];|\
    a\\;b;~1[a\\;b];|\
    a\\ b;~1[a\\ b];|\
    a\\{b;~1[a\\{b];|\
    \\#a;~1[\\#a];|\
    \"a\\\"b\";~1[a\"b];|\
    'a\\'b';~1[a'b];|\
    'a\\\"b';~1[a\"b];|\
    \"a\\\\\";~1[a\\];|\
    \"a\\tb\\x\";~1[a\tb\\x];|\
    a\\\nb;\nc;~1[a\\\nb];3[c];|\
    \"\\\n\" a;\nb;~1[\\\n][a];3[b];|\
    é\x00;~1[é\x00];|\
    a~!2:1|\
    a b\n~!2:2|\
    a\\~!2:1|\
    \"a\\~!2:1|\
    \"a\n~!2:2|\
    \"a\"~!2:1|\
    \"a\"\n~!2:2|\
    \"a\")~!2:1|\
    a{~!2:1|\
    a{\n\n~!2:3|\
    a{b}~!2:1|\
    ;~!3:1|\
    a;\n;~!3:2|\
    a{;}~!3:1|\
    ;{~!3:1|\
    {~!4:1|\
    a{{~!4:1|\
    a\n;\n {~!4:3|\
    }}}}}}}}}}}}}}}}}~!5:1|\
    a }~!5:1|\
    a;}~!5:1|\
    a{b }~!5:1|\
    a{}\n}~!5:2|\
    \"a\"b;~!6:1|\
    \"a\"}~!6:1|\
    a \"b\"}~!6:1|\
    \"a\"#;~!6:1|\
    \"a\"\"b\";~!6:1|\
    \n\"a\"\n'b'c~!6:3|\
    a{a{a{a{a{a{a{a{a{a{a{a{a{a{a{a{}}}}}}}}}}}}}}}}~1[a]{1[a]{1[a]{1[a]{1[a]{1[a]{1[a]{1[a]{1[a]{1[a]{1[a]{1[a]{1[a]{1[a]{1[a]{1[a]{}}}}}}}}}}}}}}}}|\
    a{a{a{a{a{a{a{a{a{a{a{a{a{a{a{a{{~!4:1|\
    a{a{a{a{a{a{a{a{a{a{a{a{a{a{a{a{\nb{~!7:2|\
    a{a{a{a{a{a{a{a{a{a{a{a{a{a{a{a{b;~!2:1|\
    a{a{a{a{a{a{a{a{a{a{a{a{a{a{a{a{}}}}}}}}}}}}}}}}}~!5:1";

/// Writes directives as in `CASES`.
fn show(out: &mut Vec<u8>, directives: &[Directive]) -> Result<(), AllocError> {
    for directive in directives {
        out.push(b'0' + (directive.line % 10) as u8)?;
        for word in directive.words.as_slice() {
            out.push(b'[')?;
            out.extend_from_slice(word.bytes())?;
            out.push(b']')?;
        }
        match &directive.block {
            None => out.push(b';')?,
            Some(block) => {
                out.push(b'{')?;
                show(out, block.as_slice())?;
                out.push(b'}')?;
            }
        }
    }
    Ok(())
}

/// What a text says, as in `CASES`.
fn shown(alloc: Global, text: &[u8]) -> Result<Vec<u8>, AllocError> {
    let mut out = Vec::new(alloc);
    match read(alloc, text) {
        Ok(tree) => show(&mut out, tree.directives.as_slice())?,
        Err(TextFault::At { line, kind }) => {
            out.push(b'!')?;
            out.push(b'0' + (kind % 10) as u8)?;
            out.push(b':')?;
            out.push(b'0' + (line % 10) as u8)?;
        }
        Err(TextFault::NoMemory) => out.push(b'?')?,
    }
    Ok(out)
}

#[test]
fn texts_say(rt: HostRuntime) -> Result<(), AllocError> {
    let mut tried = 0u64;
    for case in CASES.split('|') {
        if let Some((text, want)) = case.split_once('~') {
            let found = shown(rt.alloc(), text.as_bytes())?;
            assert!(rt; found.as_slice() == want.as_bytes(), "{text}");
            tried = tried.wrapping_add(1);
        }
    }
    assert_eq!(rt; tried, 101);
    Ok(())
}

#[test]
fn bytes_are_no_text(rt: HostRuntime) -> Result<(), AllocError> {
    let found = shown(rt.alloc(), b"\xff\x80 \xc3;")?;
    assert!(rt; found.as_slice() == b"1[\xff\x80][\xc3];".as_slice());
    Ok(())
}

#[test]
fn faults_have_a_text(rt: HostRuntime) -> Result<(), AllocError> {
    let fault = TextFault::At { line: 12, kind: 3 };
    let text = format!(in rt.alloc(); "{fault}")?;
    assert!(rt; text.as_str() == "line 12: `;` without a word");
    let text = format!(in rt.alloc(); "{}", TextFault::NoMemory)?;
    assert!(rt; text.as_str() == "no memory for the directives");
    Ok(())
}
