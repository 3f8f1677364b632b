//! Writes facts and nodes as an image spells them.
ghost use Rattle.std.specs.Prelude.{◌≡◌, ◌<◌, ◌≤◌, ◌+◌, ◌∷◌, ◌++◌, [], true, codes, length, IfOk, OnOk};
ghost use Rattle.std.specs.Fmt.{decimal};
ghost use Rattle.std.specs.List.{flat_map};
ghost use Rattle.base64.specs.GeneralPurpose.{encode_of};
ghost use Rattle.base64.specs.Engines.{standard};
ghost use Rattle.pv_acl.specs.Parts.{mode_of};
ghost use Rattle.pv_acl.specs.Texts.{acl_text, or_dash};
ghost use Rattle.pv_path.specs.Printing.{printed, printed_path};
ghost use Rattle.pv_text.specs.Lines.{is_line};
ghost use Rattle.pv_image.specs.declared.version.Version.TheVariants.{Two};
ghost use Rattle.pv_steps.specs.Attributes.{are_bytes};
ghost use Rattle.pv_image.specs.Spelling.{attr_text, attrs_text, content_text, fact_text, kind_text, letters_text, line, mode_text, node_text, numbers_text, object_text, payload_text, stamps_text};
ghost use Rattle.pv_image.specs.Writing.{with_columns};

use crate::name::is_plain_text;
use base64::engine::general_purpose::STANDARD;
use itoa::Buffer;
use pv_acl::{Acl, Part, print_acl};
use pv_path::{Name, add_printed, add_printed_but};
use pv_steps::{Attr, Kind, LetterSet, Node, Stamps};
use std::alloc::{AllocError, Global};

/// Returns the letter of a kind.
fn kind_letter(kind: Kind) -> u8
    ensures { kind_text kind ≡ result ∷ [] }
{
    match kind {
        Kind::Directory => b'd',
        Kind::File => b'f',
        Kind::Link => b'l',
        Kind::Fifo => b'p',
        Kind::CharDevice => b'c',
        Kind::BlockDevice => b'b',
    }
}

/// Appends a space and a text.
fn add_column(output: &mut Vec<u8>, text: &[u8]) -> Result<(), AllocError>
    ensures { OnOk result (output.new.items ≡ output.old.items ++ 32 ∷ text.now) }
{
    output.push(b' ')?;
    output.extend_from_slice(text)?;
    Ok(())
}

/// Appends a space and a dash.
fn add_dash(output: &mut Vec<u8>) -> Result<(), AllocError>
    ensures { OnOk result (output.new.items ≡ output.old.items ++ 32 ∷ codes "-") }
{
    output.push(b' ')?;
    output.push(b'-')?;
    Ok(())
}

/// Appends a space and a text, or a dash if the text is empty.
fn add_or_dash(output: &mut Vec<u8>, text: &[u8]) -> Result<(), AllocError>
    ensures { OnOk result (output.new.items ≡ output.old.items ++ 32 ∷ or_dash text.now) }
{
    match text {
        [] => add_dash(output),
        text => add_column(output, text),
    }
}

/// Appends a space and printed bytes.
fn add_printed_column(output: &mut Vec<u8>, bytes: &[u8]) -> Result<(), AllocError>
    ensures { OnOk result (output.new.items ≡ output.old.items ++ 32 ∷ printed bytes.now) }
{
    output.push(b' ')?;
    add_printed(output, bytes)
}

/// Appends a few bytes in Base64.
fn add_encoded(output: &mut Vec<u8>, bytes: &[u8]) -> Result<(), AllocError>
    requires { length bytes.now ≤ 768 }
    ensures { OnOk result (output.new.items ≡ output.old.items ++ encode_of standard bytes.now) }
{
    let mut text = [0; 1024];
    let Ok(count) = STANDARD.encode_slice(bytes, &mut text) else {
        unreachable!();
    };
    output.extend_from_slice(&text[..count])?;
    Ok(())
}

/// Appends bytes in Base64. It encodes a few at a time, so that no second text of their length is made.
fn add_base64(output: &mut Vec<u8>, content: &[u8]) -> Result<(), AllocError>
    ensures { OnOk result (output.new.items ≡ output.old.items ++ encode_of standard content.now) }
{
    let mut rest = content;
    while rest.len() > 768 {
        let (front, back) = rest.split_at(768);
        add_encoded(output, front)?;
        rest = back;
    }
    add_encoded(output, rest)?;
    Ok(())
}

/// Appends a space and the bytes of a file in Base64, or a dash if the file is empty.
fn add_content(output: &mut Vec<u8>, content: &[u8]) -> Result<(), AllocError>
    ensures { OnOk result (output.new.items ≡ output.old.items ++ 32 ∷ content_text content.now) }
{
    match content {
        [] => add_dash(output),
        [_, ..] => {
            output.push(b' ')?;
            add_base64(output, content)
        }
    }
}

/// Appends a space and two numbers with a colon between them.
fn add_numbers(output: &mut Vec<u8>, major: u32, minor: u32) -> Result<(), AllocError>
    ensures { OnOk result (output.new.items ≡ output.old.items ++ 32 ∷ numbers_text (major, minor)) }
{
    add_number(output, b' ', u64::from(major))?;
    add_number(output, b':', u64::from(minor))
}

/// Appends a space and the payload: the bytes of a file, the target of a link, or the numbers of a device.
fn add_payload(output: &mut Vec<u8>, node: &Node, payload: &[u8]) -> Result<(), AllocError>
    ensures { OnOk result (output.new.items ≡ output.old.items ++ 32 ∷ payload_text node.now.kind
        (record { bytes = payload.now; major = node.now.major; minor = node.now.minor })) }
{
    match node.kind {
        Kind::File => add_content(output, payload),
        Kind::Link => add_printed_column(output, payload),
        Kind::CharDevice | Kind::BlockDevice => { add_numbers(output, node.major, node.minor) }
        Kind::Directory | Kind::Fifo => add_dash(output),
    }
}

/// Returns one octal digit of a mode.
fn octal(digit: u8) -> u8
    requires { digit ≤ 7 }
    ensures { result ≡ 48 + digit }
{
    b'0' + digit
}

/// Appends a space and the four octal digits of a mode.
fn add_mode(output: &mut Vec<u8>, special: u8, access: &Part) -> Result<(), AllocError>
    ensures { OnOk result (output.new.items ≡ output.old.items ++ 32 ∷ mode_text (mode_of special access.now)) }
{
    output.push(b' ')?;
    output.push(octal(special % 8))?;
    output.push(octal(access.owner.bits))?;
    output.push(octal(access.group.bits))?;
    output.push(octal(access.other.bits))?;
    Ok(())
}

/// Appends a separator and a number of one digit.
fn add_digit(output: &mut Vec<u8>, separator: u8, number: u8) -> Result<(), AllocError>
    requires { number < 10 }
    ensures { OnOk result (output.new.items ≡ output.old.items ++ separator ∷ decimal number) }
{
    output.push(separator)?;
    output.push(b'0' + number)?;
    Ok(())
}

/// Appends a separator and a decimal number. A number of one digit, as most in the manifest of a folder, is
/// appended at once.
fn add_number(output: &mut Vec<u8>, separator: u8, number: u64) -> Result<(), AllocError>
    ensures { OnOk result (output.new.items ≡ output.old.items ++ separator ∷ decimal number) }
{
    if number < 10 {
        return add_digit(output, separator, number as u8);
    }
    let mut buffer = Buffer::new();
    output.push(separator)?;
    output.extend_from_slice(buffer.format(number).as_bytes())?;
    Ok(())
}

/// Appends a space and the four timestamps.
fn add_stamps(output: &mut Vec<u8>, stamps: &Stamps) -> Result<(), AllocError>
    ensures { OnOk result (output.new.items ≡ output.old.items ++ 32 ∷ stamps_text stamps.now) }
{
    add_number(output, b' ', stamps.access)?;
    add_number(output, b',', stamps.birth)?;
    add_number(output, b',', stamps.change)?;
    add_number(output, b',', stamps.modify)
}

/// Appends a slash and a printed name.
fn add_name(output: &mut Vec<u8>, name: &[u8]) -> Result<(), AllocError>
    ensures { OnOk result (output.new.items ≡ output.old.items ++ 47 ∷ printed name.now) }
{
    output.push(b'/')?;
    if is_plain_text(name) {
        output.extend_from_slice(name)?;
        return Ok(());
    }
    add_printed(output, name)
}

/// Appends the printed names of a path, each after a slash.
fn add_names(output: &mut Vec<u8>, path: &[Name]) -> Result<(), AllocError>
    ensures { let names = flat_map (λ n. 47 ∷ printed n) path.now in
        OnOk result (output.new.items ≡ output.old.items ++ names) }
{
    for name in path {
        add_name(output, name.bytes())?;
    }
    Ok(())
}

/// Appends a space and a printed path.
fn add_path(output: &mut Vec<u8>, path: &[Name]) -> Result<(), AllocError>
    ensures { OnOk result (output.new.items ≡ output.old.items ++ 32 ∷ printed_path path.now) }
{
    if path.is_empty() {
        return add_column(output, b"/");
    }
    output.push(b' ')?;
    add_names(output, path)
}

/// Appends a space and the entries of an ACL, or a dash if the mode says everything (acl(5)).
fn add_acl(alloc: Global, output: &mut Vec<u8>, acl: &Acl) -> Result<(), AllocError>
    ensures { OnOk result (output.new.items ≡ output.old.items ++ 32 ∷ acl_text acl.now) }
{
    if acl.is_minimal() {
        return add_dash(output);
    }
    let text = print_acl(alloc, acl)?;
    add_column(output, text.as_slice())
}

/// Appends an attribute: its name, an equals sign and its value (xattr(7)).
fn add_attr(output: &mut Vec<u8>, attr: &Attr) -> Result<(), AllocError>
    ensures { OnOk result (output.new.items ≡ output.old.items ++ attr_text attr.now) }
{
    add_printed_but(output, attr.name.as_slice(), b",=")?;
    output.push(b'=')?;
    add_printed_but(output, attr.value.as_slice(), b",=")
}

/// Appends attributes, each after a comma.
fn add_more_attrs(output: &mut Vec<u8>, attrs: &[Attr]) -> Result<(), AllocError>
    ensures { let texts = flat_map (λ attr. 44 ∷ attr_text attr) attrs.now in
        OnOk result (output.new.items ≡ output.old.items ++ texts) }
{
    for attr in attrs {
        output.push(b',')?;
        add_attr(output, attr)?;
    }
    Ok(())
}

/// Appends a space and attributes, or a dash if there are none.
fn add_attrs(output: &mut Vec<u8>, attrs: &[Attr]) -> Result<(), AllocError>
    ensures { OnOk result (output.new.items ≡ output.old.items ++ 32 ∷ attrs_text attrs.now) }
{
    match attrs {
        [] => add_dash(output),
        [attr, attrs @ ..] => {
            output.push(b' ')?;
            add_attr(output, attr)?;
            add_more_attrs(output, attrs)?;
            Ok(())
        }
    }
}

/// Appends a space and the letters of flags, or a dash if there are none (chattr(1)).
fn add_letters(alloc: Global, output: &mut Vec<u8>, letters: LetterSet) -> Result<(), AllocError>
    ensures { OnOk result (output.new.items ≡ output.old.items ++ 32 ∷ letters_text letters) }
{
    if letters.is_empty() {
        return add_dash(output);
    }
    let text = letters.letters(alloc)?;
    add_or_dash(output, text.as_slice())
}

/// Appends the columns of the mode, the owner and the owning group.
fn add_owner(output: &mut Vec<u8>, node: &Node) -> Result<(), AllocError>
    ensures { let n = node.now in let mode = mode_of n.special n.acl.access in
        let texts = mode_text mode ∷ decimal n.uid ∷ decimal n.gid ∷ [] in
        OnOk result (output.new.items ≡ with_columns output.old.items texts) }
{
    add_mode(output, node.special, &node.acl.access)?;
    add_number(output, b' ', u64::from(node.uid))?;
    add_number(output, b' ', u64::from(node.gid))
}

/// Appends the columns of the ACL, the attributes, the flags and the payload.
fn add_others(
    alloc: Global,
    output: &mut Vec<u8>,
    node: &Node,
    payload: &[u8],
) -> Result<(), AllocError>
    ensures { let n = node.now in
        let kept = payload_text n.kind (record { bytes = payload.now; major = n.major; minor = n.minor }) in
        let texts = acl_text n.acl ∷ attrs_text n.attrs ∷ letters_text n.letters ∷ kept ∷ [] in
        OnOk result (output.new.items ≡ with_columns output.old.items texts) }
{
    add_acl(alloc, output, &node.acl)?;
    add_attrs(output, node.attrs.as_slice())?;
    add_letters(alloc, output, node.letters)?;
    add_payload(output, node, payload)
}

/// Appends the line of a node.
pub(crate) fn add_node(
    alloc: Global,
    output: &mut Vec<u8>,
    path: &[Name],
    node: &Node,
    payload: &[u8],
) -> Result<(), AllocError>
    ensures { OnOk result (output.new.items ≡ output.old.items ++ line (node_text Two
        (path.now, record { node = node.now; payload = payload.now }))) }
{
    output.push(kind_letter(node.kind))?;
    add_path(output, path)?;
    add_owner(output, node)?;
    add_stamps(output, &node.stamps)?;
    add_others(alloc, output, node, payload)?;
    output.push(b'\n')?;
    Ok(())
}

/// Returns an object as an image of version 2 spells it, but without its path, its timestamps and the line feed.
///
/// The columns are kind, mode, owner, owning group, ACL, attributes, flags and payload, with one space between them.
/// `payload` is the bytes of a file or the target of a link. The text fits into one line. The only error is
/// `AllocError`.
pub fn print_node(alloc: Global, node: &Node, payload: &[u8]) -> Result<Vec<u8>, AllocError>
    ensures text { IfOk result (λ text. text.items ≡ object_text (record { node = node.now; payload = payload.now })) }
    ensures line { IfOk result (λ text. is_line text.items ≡ true) }
{
    let mut text = Vec::new(alloc);
    text.push(kind_letter(node.kind))?;
    add_owner(&mut text, node)?;
    add_others(alloc, &mut text, node, payload)?;
    Ok(text)
}

/// Appends the line of a fact.
pub(crate) fn add_fact(output: &mut Vec<u8>, letter: u8, value: &[u8]) -> Result<(), AllocError>
    ensures text { OnOk result (output.new.items ≡ output.old.items ++ line (fact_text (letter, value.now))) }
    ensures bytes { OnOk result (are_bytes value.now ≡ true) }
{
    output.extend_from_slice(b"fact ")?;
    output.push(letter)?;
    add_printed_column(output, value)?;
    output.push(b'\n')?;
    Ok(())
}
