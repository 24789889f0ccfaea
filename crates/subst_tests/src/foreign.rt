//! Templates for texts of other tools. The rows of envsubst's texts were worked out by hand, and agree with
//! envsubst. The other rows were worked out from the definition of the forms alone.

use crate::expect::{Testing, expect, expect_bytes, expect_display};
use std::alloc::{AllocError, Global};
use std::test::Fail;
use subst::foreign::{
    AllNames, FormAt, Forms, KnownNames, Missing, Names, OnlyNames, Operator, ShellForm, Style,
    TextError, TextVariable, from_envsubst, with_only,
};
use subst::{Error, NoEmpty, NoSubstitution, ShellMap, Template, substitute, substitute_bytes};
use subst_testing::variables::{byte_values, texts};

/// A text, its template, and the template's output with `VARIABLES`.
type Row<'t> = (&'t str, &'t str, &'t str);

const VARIABLES: &str = "a=1,b_2=$a,1=one,d=4,e=";

const OF_ENVSUBST: [Row<'static>; 9] = [
    ("", "", ""),
    ("é {:?} }", "é {:?} }", "é {:?} }"),
    ("$a-$b_2 ${a}${b_2}", "$a-$b_2 ${a}${b_2}", "1-$a 1$a"),
    ("$$a $", "\\$$a \\$", "$1 $"),
    ("\\$a \\", "\\\\$a \\\\", "\\1 \\"),
    ("$1 ${1} $1a", "\\$1 \\${1} \\$1a", "$1 ${1} $1a"),
    ("${a:-x} ${a", "\\${a:-x} \\${a", "${a:-x} ${a"),
    ("${} ${ a} ${é}", "\\${} \\${ a} \\${é}", "${} ${ a} ${é}"),
    ("${a}}$a}${${a}}", "${a}}$a}\\${${a}}", "1}1}${1}"),
];

/// Lists of chosen names, each with a row. No other name is a variable in the row's text.
const WITH_ONLY: [(&[&str], Row<'static>); 5] = [
    (&[], ("$a \\", "\\$a \\\\", "$a \\")),
    (
        &["a"],
        (
            "$a$b_2 ${a}${b_2}",
            "$a\\$b_2 ${a}\\${b_2}",
            "1$b_2 1${b_2}",
        ),
    ),
    (
        &["b_2", "a"],
        ("$a$b_2 $ab $", "$a$b_2 \\$ab \\$", "1$a $ab $"),
    ),
    (&["1", "a"], ("$1 ${1}$a", "\\$1 \\${1}$a", "$1 ${1}1")),
    (
        &["", "é", "a-"],
        ("$ ${} ${é} $a-", "\\$ \\${} \\${é} \\$a-", "$ ${} ${é} $a-"),
    ),
];

/// Texts in each of the `Forms`, with all names chosen.
const OF_FORMS: [(Forms, Missing, Row<'static>); 10] = [
    (
        Forms::Own,
        Missing::Fault,
        (
            "$a ${1} ${x?} ${x:d\\} $ ${a:-d}",
            "$a ${1} ${x?} ${x:d\\\\} \\$ \\${a:-d}",
            "1 one  d\\ $ ${a:-d}",
        ),
    ),
    (
        Forms::Own,
        Missing::Nothing,
        ("$x${a}${x:$a.}", "${x?}${a?}${x:${a?}.}", "11."),
    ),
    (
        Forms::Envsubst,
        Missing::Nothing,
        ("$5 ${x}$a.", "\\$5 ${x?}${a?}.", "$5 1."),
    ),
    (
        Forms::Shell,
        Missing::Fault,
        (
            "$a ${e:-d}${e-d} ${a:+p}${x+q} $$ $1",
            "${1a} ${e:d}${1e:d} ${3a:p}${2x:q} \\$ \\$1",
            "1 d p $ $1",
        ),
    ),
    (
        Forms::Shell,
        Missing::Nothing,
        (
            "$x|${a:?m}|${e?{m}}|${x:-{$a}}\\{",
            "${1x?}|${a}|${1e}|${x:{${1a?}}}\\\\{",
            "|1||{1}\\{",
        ),
    ),
    (
        Forms::Shell,
        Missing::Nothing,
        (
            "${x-${e:-$a}}${e:+p}${e+q}",
            "${1x:${e:${1a?}}}${3e:p}${2e:q}",
            "1q",
        ),
    ),
    (
        Forms::Common,
        Missing::Nothing,
        (
            "$a:${b}:${c:-é$a}:${d:?no d} $$ \\ {}",
            "${a?}:${b?}:${c:é${a?}}:${d} \\$ \\\\ {}",
            "1::é1:4 $ \\ {}",
        ),
    ),
    (
        Forms::Common,
        Missing::Nothing,
        ("${e:-d}$e.", "${e:d}${e?}.", "d."),
    ),
    (
        Forms::Common,
        Missing::Fault,
        ("${x:-${e:-$a}}$x", "${x:${e:${a?}}}${x?}", "1"),
    ),
    (Forms::Common, Missing::Nothing, ("", "", "")),
];

/// Texts in several of the `Forms`. A name is a variable if `VARIABLES` has a value for it, or if an operator
/// follows it.
const OF_KNOWN: [(Forms, Row<'static>); 3] = [
    (Forms::Own, ("$a $x ${x:d}", "$a \\$x ${x:d}", "1 $x d")),
    (Forms::Envsubst, ("$a:${x}", "$a:\\${x}", "1:${x}")),
    (
        Forms::Shell,
        (
            "$a $x ${x:-$x} [$e] $$",
            "${1a} \\$x ${x:\\$x} [${1e}] \\$\\$",
            "1 $x $x [] $$",
        ),
    ),
];

/// Texts that begin with a form that `Forms::Common` refuses, each with that form.
const REFUSED: [(&str, ShellForm); 18] = [
    ("$1", ShellForm::Dollar),
    ("$(b)", ShellForm::Dollar),
    ("${}", ShellForm::NoName),
    ("${1}", ShellForm::NoName),
    ("${a-b}", ShellForm::Minus),
    ("${a?b}", ShellForm::Question),
    ("${a=b}", ShellForm::Equals),
    ("${a+b}", ShellForm::Plus),
    ("${a:=b}", ShellForm::ColonEquals),
    ("${a:+b}", ShellForm::ColonPlus),
    ("${a:1}", ShellForm::Colon),
    ("${a#b}", ShellForm::Hash),
    ("${a%b}", ShellForm::Percent),
    ("${a/b/c}", ShellForm::Slash),
    ("${a!}", ShellForm::Other),
    ("${a:?{}}", ShellForm::Message),
    ("${a", ShellForm::Unclosed),
    ("${a:-$b", ShellForm::Unclosed),
];

/// Texts of envsubst, each with the position of its first variable's name.
const NAMES: [(&str, usize); 3] = [("$x", 1), ("$5 for ${x}", 9), ("\\$$x $y", 3)];

/// Returns the refused form `form` at `position`.
fn at(position: usize, form: ShellForm) -> FormAt {
    FormAt { position, form }
}

/// Returns a variable of a text.
fn variable<'t>(
    position: usize,
    name: &'t str,
    operator: Option<Operator>,
    message: &'t str,
) -> TextVariable<'t> {
    TextVariable {
        position,
        name: name.as_bytes(),
        operator,
        message: message.as_bytes(),
    }
}

/// Returns a style with all names chosen.
fn of_all(forms: Forms, missing: Missing) -> Style<'static, AllNames> {
    Style {
        forms,
        names: &AllNames,
        missing,
    }
}

/// Fills `VARIABLES` into the template for a text in `forms`.
fn filled(alloc: Global, forms: Forms, template: &str) -> Result<String, Error> {
    let map = texts(alloc, VARIABLES)?;
    match forms {
        Forms::Own | Forms::Envsubst => substitute(alloc, template, &map),
        Forms::Shell => substitute(alloc, template, &ShellMap { map: &map }),
        Forms::Common => substitute(alloc, template, &NoEmpty { map: &map }),
    }
}

/// Fills `VARIABLES` into the byte template for a text in `forms`.
fn filled_bytes(alloc: Global, forms: Forms, template: &[u8]) -> Result<Vec<u8>, Error> {
    let map = byte_values(alloc, VARIABLES)?;
    match forms {
        Forms::Own | Forms::Envsubst => substitute_bytes(alloc, template, &map),
        Forms::Shell => substitute_bytes(alloc, template, &ShellMap { map: &map }),
        Forms::Common => substitute_bytes(alloc, template, &NoEmpty { map: &map }),
    }
}

/// Expects that the text of `row` has the row's template and output, as a text and as bytes. Also expects
/// that no form in the text is refused.
fn expect_row<N: Names>(rt: &impl Testing, style: Style<'_, N>, row: Row<'_>) {
    let (text, template, given) = row;
    let (bytes, alloc) = (text.as_bytes(), rt.alloc());
    expect(rt, text, style.template(alloc, text), template);
    expect_bytes(rt, text, style.byte_template(alloc, bytes), template);
    expect(rt, text, filled(alloc, style.forms, template), given);
    let output = filled_bytes(alloc, style.forms, template.as_bytes());
    expect_bytes(rt, text, output, given);
    let refused = style.refusals(alloc, bytes);
    assert_eq!(rt;
        refused.is_ok_and(|refused| refused.is_empty()),
        true,
        "{text:?}"
    );
}

#[test]
fn texts_of_envsubst_have_templates(rt: HostRuntime) {
    for row in OF_ENVSUBST {
        expect(&rt, row.0, from_envsubst(rt.alloc(), row.0), row.1);
        expect_row(&rt, of_all(Forms::Envsubst, Missing::Fault), row);
    }
}

#[test]
fn texts_have_templates_with_some_names_only(rt: HostRuntime) -> Result<(), Fail> {
    for (names, row) in WITH_ONLY {
        expect(&rt, row.0, with_only(rt.alloc(), row.0, names), row.1);
        let only = OnlyNames::new(rt.alloc(), names)?;
        let style = Style {
            forms: Forms::Envsubst,
            names: &only,
            missing: Missing::Fault,
        };
        expect_row(&rt, style, row);
    }
    Ok(())
}

#[test]
fn names_that_begin_with_a_digit_are_of_own_forms(rt: HostRuntime) -> Result<(), Fail> {
    let style = Style {
        forms: Forms::Own,
        names: &OnlyNames::new(rt.alloc(), &["1"])?,
        missing: Missing::Fault,
    };
    expect_row(&rt, style, ("$1 ${1} $a", "$1 ${1} \\$a", "one one $a"));
    Ok(())
}

#[test]
fn texts_of_each_form_have_templates(rt: HostRuntime) {
    for (forms, missing, row) in OF_FORMS {
        expect_row(&rt, of_all(forms, missing), row);
    }
}

#[test]
fn texts_have_templates_with_known_names_only(rt: HostRuntime) -> Result<(), Fail> {
    let map = texts(rt.alloc(), VARIABLES)?;
    for (forms, row) in OF_KNOWN {
        let style = Style {
            forms,
            names: &KnownNames { map: &map },
            missing: Missing::Fault,
        };
        expect_row(&rt, style, row);
    }
    Ok(())
}

#[test]
fn other_forms_are_refused_where_they_begin(rt: HostRuntime) -> Result<(), Fail> {
    let style = of_all(Forms::Common, Missing::Nothing);
    for (form_text, form) in REFUSED {
        let text = format!(in rt.alloc(); "é {form_text}")?;
        let refused = TextError::Refused(at(3, form));
        assert_eq!(rt; style.template(rt.alloc(), &text), Err(refused), "{text:?}");
        let template = style.byte_template(rt.alloc(), text.as_bytes());
        assert_eq!(rt; template, Err(refused), "{text:?}");
    }
    let brace = TextError::Refused(at(5, ShellForm::Brace));
    assert_eq!(rt; style.template(rt.alloc(), "${a:-{}}"), Err(brace));
    Ok(())
}

#[test]
fn all_refused_forms_are_listed(rt: HostRuntime) -> Result<(), Fail> {
    let style = of_all(Forms::Shell, Missing::Nothing);
    let refused = style.refusals(rt.alloc(), b"${a=x} ${} ${b:-${c#y z")?;
    let wanted = [
        at(0, ShellForm::Equals),
        at(7, ShellForm::NoName),
        at(16, ShellForm::Hash),
        at(11, ShellForm::Unclosed),
    ];
    assert_eq!(rt; refused.as_slice(), wanted.as_slice());
    Ok(())
}

#[test]
fn errors_of_texts_are_displayed(rt: HostRuntime) {
    let want = "`=` of a shell's variable can't be given here";
    expect_display(&rt, &ShellForm::Equals, want);
    expect_display(&rt, &TextError::Refused(at(0, ShellForm::Equals)), want);
    expect_display(&rt, &TextError::from(AllocError), "out of memory");
}

#[test]
fn variables_are_listed_with_operators_and_messages(rt: HostRuntime) -> Result<(), Fail> {
    let (text, style) = (
        "é $a ${b:?set me}${c-$d}$$",
        of_all(Forms::Shell, Missing::Nothing),
    );
    let variables = style.variables(rt.alloc(), text.as_bytes())?;
    let wanted = [
        variable(4, "a", None, ""),
        variable(8, "b", Some(Operator::ColonQuestion), "set me"),
        variable(20, "c", Some(Operator::Minus), ""),
        variable(23, "d", None, ""),
    ];
    assert_eq!(rt; variables.as_slice(), wanted.as_slice());
    assert_eq!(rt; Operator::ColonQuestion.takes_message(), true);
    assert_eq!(rt; Operator::Minus.takes_message(), false);
    Ok(())
}

/// Returns the position of the first unset variable in a text of envsubst. The variables of the template have
/// the same indices as those of the text.
fn missing_position(alloc: Global, text: &str) -> Result<Option<usize>, Error> {
    let source = from_envsubst(alloc, text)?;
    let template = Template::from_str(alloc, source.as_str())?;
    let missing = template.missing(alloc, &NoSubstitution)?;
    let Some(first) = missing.first() else {
        return Ok(None);
    };
    let variables = template.variables(alloc)?;
    let index = variables
        .iter()
        .position(|variable| variable.position == first.position);
    let style = of_all(Forms::Envsubst, Missing::Fault);
    let listed = style.variables(alloc, text.as_bytes())?;
    Ok(
        listed
            .get(index.unwrap_or(usize::MAX))
            .map(|variable| variable.position),
    )
}

#[test]
fn missing_names_have_a_position_in_the_text(rt: HostRuntime) {
    for (text, position) in NAMES {
        let found = missing_position(rt.alloc(), text);
        assert_eq!(rt; found, Ok(Some(position)), "{text:?}");
    }
}
