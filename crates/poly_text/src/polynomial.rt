// The text of a polynomial, written from left to right. After an error what was written so far stands there.
ghost use Rattle.std.specs.Prelude.{◌≡◌, ◌++◌, ◌<◌, OnOk, OnErr, length, map, string_bytes};
ghost use Rattle.std.specs.Fmt.{decimal};
ghost use Rattle.formal_sums.specs.FormalSums.{Each};
ghost use Rattle.term_lists.specs.Vectors.{HasVariables};
ghost use Rattle.poly_text.specs.Texts.{poly_text, powers_texts, term_text};
ghost use Rattle.poly_text.specs.Writing.{IsFront, factor_start, power_text, powers_rest};

use crate::NoMemory;
use itoa::Buffer;
use line_text::LineText;
use module_vectors::Key;

/// Appends a number.
fn append_number(out: &mut LineText, n: u32) -> Result<(), NoMemory>
    ensures ok { OnOk result (out.new ≡ out.old ++ decimal n) }
    ensures err { OnErr result (out.new ≡ out.old) }
{
    if n < 10 {
        out.push(b'0' + n as u8)?;
        return Ok(());
    }
    let mut buffer = Buffer::new();
    out.extend_from_slice(buffer.format(n).as_bytes())?;
    Ok(())
}

/// Appends a power, behind a `*` where it is not the first factor.
fn append_power(
    out: &mut LineText,
    started: bool,
    name: &[u8],
    exponent: u16,
) -> Result<(), NoMemory>
    ensures ok { OnOk result (out.new ≡ out.old ++ (factor_start started ++ power_text name.now exponent)) }
    ensures err { OnErr result (IsFront out.old out.new) }
{
    if started {
        out.push(b'*')?;
    }
    out.extend_from_slice(name)?;
    if exponent == 1 {
        return Ok(());
    }
    out.push(b'^')?;
    append_number(out, u32::from(exponent))
}

/// Appends the powers of a monomial behind the factors that stand there, or 1 where there is no factor at all.
fn append_powers(
    out: &mut LineText,
    vars: &[String],
    exponents: &[u16],
    started: bool,
) -> Result<(), NoMemory>
    requires { length exponents.now ≡ length vars.now }
    ensures ok { OnOk result (out.new ≡ out.old ++ powers_rest started (powers_texts (map string_bytes vars.now) exponents.now)) }
    ensures err { OnErr result (IsFront out.old out.new) }
{
    let mut begun = started;
    for (i, name) in vars.iter().enumerate() {
        let exponent = exponents[i];
        if exponent > 0 {
            match append_power(out, begun, name.as_bytes(), exponent) {
                Ok(()) => {}
                Err(early) => return Err(early),
            }
            begun = true;
        }
    }
    if begun {
        return Ok(());
    }
    out.push(b'1')?;
    Ok(())
}

/// Appends a term: its residue, which is left out before a power where it is 1, and its powers.
pub fn append_term(out: &mut LineText, vars: &[String], term: &(Key, u32)) -> Result<(), NoMemory>
    requires { HasVariables (length vars.now) term.now }
    ensures ok { OnOk result (out.new ≡ out.old ++ term_text (map string_bytes vars.now) term.now) }
    ensures err { OnErr result (IsFront out.old out.new) }
{
    let residue = term.1;
    let exponents = term.0.monomial.exponents();
    let bare = residue == 1;
    if bare {
        return append_powers(out, vars, exponents, false);
    }
    append_number(out, residue)?;
    append_powers(out, vars, exponents, true)
}

/// Appends a polynomial: its terms, the greatest first.
pub fn append_terms(
    out: &mut LineText,
    vars: &[String],
    terms: &[(Key, u32)],
) -> Result<(), NoMemory>
    requires { Each (HasVariables (length vars.now)) terms.now }
    ensures ok { OnOk result (out.new ≡ out.old ++ poly_text (map string_bytes vars.now) terms.now) }
    ensures err { OnErr result (IsFront out.old out.new) }
{
    let Some((first, rest)) = terms.split_first() else {
        out.push(b'0')?;
        return Ok(());
    };
    append_term(out, vars, first)?;
    for term in rest {
        out.push(b'+')?;
        match append_term(out, vars, term) {
            Ok(()) => {}
            Err(early) => return Err(early),
        }
    }
    Ok(())
}
