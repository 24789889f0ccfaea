//! Tests of the paths to values, and of the lists of strings.

use std::alloc::{AllocError, AllocGlobal};
use std::collections::BTreeMap;
use std::process::Abort;
use std::test::Fail;
use subst_yaml::{Error, refusals_in, strings};

/// The runtime of a test: an allocator, and assertions that end the test.
trait Testing: Abort + AllocGlobal {}

impl<R: Abort + AllocGlobal> Testing for R {}

/// Texts with unset variables, and the path and the token of each refused string, or `yaml` if the reader
/// refuses the text.
const REFUSED: [(&'static str, &'static str); 30] = [
    ("$X", "=$X"),
    ("a: $X", "a=$X"),
    ("a: $X\nb:\n  c: '$Y'\n", "a=$X b.c='$Y'"),
    (
        "services:\n  web:\n    ports:\n      - 80\n      - \"$P\"\n    image: $I\n",
        "services.web.ports[1]=\"$P\" services.web.image=$I",
    ),
    (
        "a:\n- $X\n- b: $Y\n  c: $Z\n- $W\nd: $V\n",
        "a[0]=$X a[1].b=$Y a[1].c=$Z a[2]=$W d=$V",
    ),
    ("a:\n- $X\nb:\n- $Y\n", "a[0]=$X b[0]=$Y"),
    (
        "- - $A\n  - $B\n- - $C\n- $D\n",
        "[0][0]=$A [0][1]=$B [1][0]=$C [2]=$D",
    ),
    ("- a: $X\n- b\n- $Y\n", "[0].a=$X [2]=$Y"),
    (
        "a: [x, $B, [c, $D], $E]\nf: $G\n",
        "a[1]=$B a[2][1]=$D a[3]=$E f=$G",
    ),
    ("{a: [x, {b: $Y}], c: $Z}\n", "a[1].b=$Y c=$Z"),
    ("[a: $b, $c]\n", "[0].a=$b [1]=$c"),
    ("[[], {}, $A]", "[2]=$A"),
    ("{a, b: , c: $D}", "c=$D"),
    ("[{a, b: [&x , $B]}, $C]", "[0].b[1]=$B [1]=$C"),
    ("[a, , $B]", "yaml"),
    ("[a, &x , !t , $B]", "[3]=$B"),
    (
        "- [$A, $B]\n- [$C]\n- $D",
        "[0][0]=$A [0][1]=$B [1][0]=$C [2]=$D",
    ),
    ("- [a]\n- - $D", "[1][0]=$D"),
    ("a: 1\n---\nb: $X\n---\n- c: $Y\n", "2:b=$X 3:[0].c=$Y"),
    ("$X\n--- $Y\n---\n'$Z'\n", "=$X 2=$Y 3='$Z'"),
    ("# c\n---\na: $X\n...\n---\nb: $Y\n", "a=$X 2:b=$Y"),
    ("---\n---\n$X\n", "2=$X"),
    (
        "'a b': $X\n\"c\\x41\": {'d': $Y}\n",
        "'a b'=$X \"c\\x41\".'d'=$Y",
    ),
    ("- &k a\n- *k : $X\n", "[1].*k=$X"),
    ("a: &x\n  b: !t $X\n", "a.b=$X"),
    (
        "a: |\n  $X\nb: |-\n  c\n  $Y\n",
        "a=|\n  $X\n b=|-\n  c\n  $Y\n",
    ),
    (
        "a:\n  b:\n    c: $X\n  d: $Y\ne: $Z\n",
        "a.b.c=$X a.d=$Y e=$Z",
    ),
    ("a:\nb:\n-\n- $X\n-\n  - $Y\n", "b[1]=$X b[2][0]=$Y"),
    ("$k: $v\n", "$k=$v"),
    ("é: ü$Xö\n", "é=ü$Xö"),
];

/// Returns the refused strings of a text, each as its path, `=` and its token.
fn refused(rt: &impl Testing, source: &str) -> Result<String, AllocError> {
    let variables: BTreeMap<&str, &str> = BTreeMap::new(rt.alloc());
    let mut shown = String::new(rt.alloc());
    match refusals_in(rt.alloc(), source, &variables) {
        Ok(all) => {
            for it in all.iter() {
                if !shown.as_str().is_empty() {
                    shown.push_str(" ")?;
                }
                let path = &it.path;
                let piece: String = format!(in rt.alloc(); "{path}=")?;
                shown.push_str(piece.as_str())?;
                shown.push_str(source.get(it.span.start..it.span.end).unwrap_or("no token"))?;
            }
        }
        Err(Error::Yaml(_fault)) => shown.push_str("yaml")?,
        Err(_other) => shown.push_str("another error")?,
    }
    Ok(shown)
}

#[test]
fn refused_strings_have_the_paths_that_lead_to_them(rt: HostRuntime) -> Result<(), Fail> {
    for (source, want) in &REFUSED {
        let shown = refused(&rt, source)?;
        assert_eq!(rt; shown.as_str(), *want, "{source:?}");
    }
    Ok(())
}

#[test]
fn given_strings_are_not_refused(rt: HostRuntime) -> Result<(), Fail> {
    let mut variables = BTreeMap::new(rt.alloc());
    let _ = variables.insert("A", "x")?;
    match refusals_in(rt.alloc(), "a: $A\nb: [$A, $B, c]\n", &variables) {
        Ok(all) => {
            assert_eq!(rt; all.len(), 1);
            if let Some(it) = all.as_slice().first() {
                assert_eq!(rt; it.text.as_str(), "$B");
                assert_eq!(rt; it.path.document, 1);
                assert_eq!(rt; it.path.steps.len(), 2);
                let error: String = format!(in rt.alloc(); "{}", it.error)?;
                assert_eq!(rt; error.as_str(), "No such variable: $B");
            }
        }
        Err(_) => panic!(rt; "not read"),
    }
    Ok(())
}

#[test]
fn strings_are_those_of_values_that_may_change(rt: HostRuntime) -> Result<(), Fail> {
    let source = "$k: '$a''b'\nc: d\ne: [\"\\x24f\", *g, h\\i]\nj: |\n  k\n  $l\n";
    let want = [
        ("$a'b", "'$a''b'"),
        ("$f", "\"\\x24f\""),
        ("h\\i", "h\\i"),
        ("k\n$l\n", "|\n  k\n  $l\n"),
    ];
    match strings(rt.alloc(), source) {
        Ok(list) => {
            assert_eq!(rt; list.len(), want.len());
            for (it, (text, token)) in list.iter().zip(want.iter()) {
                assert_eq!(rt; it.text.as_str(), *text);
                assert_eq!(rt; source.get(it.span.start..it.span.end), Some(*token));
            }
        }
        Err(_) => panic!(rt; "not read"),
    }
    match strings(rt.alloc(), "a: $b\n\tc: $d") {
        Err(Error::Yaml(fault)) => assert_eq!(rt; fault.line, 2),
        _ => panic!(rt; "not refused"),
    }
    Ok(())
}
