// What the texts share: lines about targets, traces, numbers, and fractions with their names.
ghost use Rattle.std.specs.Prelude.{◌≡◌, ◌<◌, ◌++◌, ◌∷◌, [], OnOk, codes, map};
ghost use Rattle.kf_value.specs.Numbers.{target_size};
ghost use Rattle.kf_value.specs.Targets.{target_text, target_value_text};
ghost use Rattle.kf_value.specs.TypeViews.{item_of};
ghost use Rattle.kf_value.specs.Texts.{text, separated};
ghost use Rattle.kf_value.specs.Views.{items_of, value_tree};
ghost use Rattle.kf_text.specs.Texts.{line, target_line, bracketed};
ghost use Rattle.kf_text.specs.Views.{own_text};

use itoa::{Buffer, Integer};
use kf_frac::Frac;
use kf_value::{Mem, Target, TargetItem, Value, print_value, write_target};
use std::alloc::Global;

// Appends the text of one item of a target.
fn print_item(item: &TargetItem, out: &mut Vec<u8>) -> Result<(), Mem>
    ensures { OnOk result (out.new.items ≡ out.old.items ++ target_text (item_of item.now ∷ [])) }
{
    if item.initial {
        print_bytes(b"old ", out)?;
    }
    print_bytes(item.name.as_str().as_bytes(), out)
}

// Appends the text of a target's items, a comma and a space between them.
fn print_items(items: &[TargetItem], out: &mut Vec<u8>) -> Result<(), Mem>
    ensures { OnOk result (out.new.items ≡ out.old.items ++ target_text (map item_of items.now)) }
{
    let [first, others @ ..] = items else {
        return Ok(());
    };
    print_item(first, out)?;
    for item in others {
        print_bytes(b", ", out)?;
        print_item(item, out)?;
    }
    Ok(())
}

// Appends the line of what a text is about.
pub fn print_about(target: &Target, out: &mut Vec<u8>) -> Result<(), Mem>
    ensures { OnOk result (out.new.items ≡ out.old.items ++ target_line (items_of target.now)) }
{
    print_bytes(b"target ", out)?;
    print_items(target.items.as_slice(), out)?;
    print_bytes(b"\n", out)
}

// Appends the texts of values, a comma and a space between them.
fn print_values(alloc: Global, values: &[Value], out: &mut Vec<u8>) -> Result<(), Mem>
    ensures { OnOk result (out.new.items ≡ out.old.items ++ separated (map text (map value_tree values.now))) }
{
    let [first, others @ ..] = values else {
        return Ok(());
    };
    print_value(alloc, first, out)?;
    for value in others {
        print_bytes(b", ", out)?;
        print_value(alloc, value, out)?;
    }
    Ok(())
}

// Appends a trace: its values in brackets.
pub fn print_trace(alloc: Global, trace: &[Value], out: &mut Vec<u8>) -> Result<(), Mem>
    ensures { OnOk result (out.new.items ≡ out.old.items ++ bracketed (map value_tree trace.now)) }
{
    print_bytes(b"[", out)?;
    print_values(alloc, trace, out)?;
    print_bytes(b"]", out)
}

// Appends bytes.
pub fn print_bytes(bytes: &[u8], out: &mut Vec<u8>) -> Result<(), Mem>
    ensures { OnOk result (out.new.items ≡ out.old.items ++ bytes.now) }
{
    out.extend_from_slice(bytes)?;
    Ok(())
}

// Appends a number, after a minus sign where it is below 0. Its digits are written without an allocation.
pub fn print_number<I: Integer>(number: I, out: &mut Vec<u8>) -> Result<(), Mem>
    ensures { OnOk result (out.new.items ≡ out.old.items ++ I.text number) }
{
    print_bytes(Buffer::new().format(number).as_bytes(), out)
}

// Appends a fraction, whose denominator is left out where it is 1.
pub fn print_frac(fraction: Frac, out: &mut Vec<u8>) -> Result<(), Mem>
    ensures { OnOk result (out.new.items ≡ out.old.items ++ own_text fraction) }
{
    let den = fraction.den();
    print_number(fraction.num(), out)?;
    if den == 1 {
        return Ok(());
    }
    print_bytes(b"/", out)?;
    print_number(den, out)
}

// Appends the line of a value of the target, and `end` after the value.
pub fn print_line(
    alloc: Global,
    target: &Target,
    value: u64,
    end: &[u8],
    out: &mut Vec<u8>,
) -> Result<(), Mem>
    requires { value < target_size (items_of target.now) }
    ensures { OnOk result (out.new.items ≡ out.old.items ++ (codes "  " ++ (target_value_text (items_of target.now) value ++ end.now))) }
{
    print_bytes(b"  ", out)?;
    write_target(alloc, target, value, out)?;
    print_bytes(end, out)
}

// Appends a name, which holds the space after it, a number, and the end of the line.
pub fn print_count<I: Integer>(name: &[u8], number: I, out: &mut Vec<u8>) -> Result<(), Mem>
    ensures { OnOk result (out.new.items ≡ out.old.items ++ line (name.now ++ I.text number)) }
{
    print_bytes(name, out)?;
    print_number(number, out)?;
    print_bytes(b"\n", out)
}

// Appends a name, which holds the space after it, a fraction, and the end of the line.
pub fn print_fraction(name: &[u8], fraction: Frac, out: &mut Vec<u8>) -> Result<(), Mem>
    ensures { OnOk result (out.new.items ≡ out.old.items ++ line (name.now ++ own_text fraction)) }
{
    print_bytes(name, out)?;
    print_frac(fraction, out)?;
    print_bytes(b"\n", out)
}
