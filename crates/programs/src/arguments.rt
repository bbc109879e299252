// The arguments: each has a role, by its text and by the role of the one before it, and the roles decide what is asked.
ghost use Rattle.std.specs.Prelude.{◌≡◌, true, false, ◌≤◌, length, IfOk, IfSome};
ghost use Rattle.card.specs.Record.{erasure_bytes};
ghost use Rattle.card.specs.Conversion.{old_erasure_bytes};
ghost use Rattle.report.specs.Window.{is_window};
ghost use Rattle.programs.specs.Arguments.{own_role, role_of, argument_from, argument_at, untaken, dangling, wrong_place, too_few, asked_of};
ghost use Rattle.programs.specs.Arguments.{edition_of, reach_in, window_chosen, is_standard, is_device};

use crate::files::buffer;
use crate::stream::{missing, too_long};
use card::records::{ERASURE_BYTES, OLD_ERASURE_BYTES};
use check::same;
use report::row::{Window, is_window};
use std::env::{Env, FillError};
use std::io;

// The role of an argument. Argument 0 is the program's name.
#[derive(Clone, Copy, PartialEq, Eq)]
pub enum Role {
    Name,
    Operand,
    OutValue,
    ReachValue,
    OutOption,
    ReachOption,
    HelpOption,
    VersionOption,
    Unknown,
}

// What the arguments ask for. Wrong holds the place of an argument that is wrong.
#[derive(Clone, Copy)]
pub enum Asked {
    Run,
    Help,
    Version,
    Wrong(usize),
    Missing,
}

// What is wrong with the two times of a window: the first, the end, or their order.
#[derive(Clone, Copy)]
pub enum WindowError {
    First,
    End,
    Order,
}

// The options and the number of operands that a program takes.
#[derive(Clone, Copy)]
pub struct Takes {
    pub out: bool,
    pub reach: bool,
    pub least: usize,
    pub most: usize,
}

impl Takes {
    // So many operands, and no option but --help and --version.
    pub fn operands(least: usize, most: usize) -> Takes
        ensures { result ≡ record { out = false; reach = false; least = least; most = most } }
    {
        Takes {
            out: false,
            reach: false,
            least,
            most,
        }
    }
}

// Room for the roles of all arguments that a program may take, and of more, so that one too many is seen.
pub const MOST_ARGUMENTS: usize = 32;

// The role of a text that is no option's value.
fn own_role(text: &[u8]) -> Role
    ensures { result ≡ own_role text.now }
{
    if same(text, b"-o") {
        return Role::OutOption;
    }
    if same(text, b"--reach") {
        return Role::ReachOption;
    }
    if same(text, b"--help") {
        return Role::HelpOption;
    }
    if same(text, b"--version") {
        return Role::VersionOption;
    }
    match text {
        [b'-', _, ..] => Role::Unknown,
        _ => Role::Operand,
    }
}

// The role of a text behind an argument of the role `before`.
fn role_of(before: Role, text: &[u8]) -> Role
    ensures { result ≡ role_of before text.now }
{
    match before {
        Role::OutOption => Role::OutValue,
        Role::ReachOption => Role::ReachValue,
        _ => own_role(text),
    }
}

// Where the n-th argument of the role stands, counted from 1; none stands in the place of the program's name.
pub fn place_of(roles: &[Role], role: Role, n: usize) -> Option<usize>
    ensures { result ≡ argument_at roles.now role n }
{
    match place_among(roles, role, n) {
        Some(0) => None,
        place => place,
    }
}

// The same, the place of the program's name with the others.
fn place_among(roles: &[Role], role: Role, n: usize) -> Option<usize>
    ensures { result ≡ argument_from 0 roles.now role n }
{
    let mut left = n;
    for (i, &found) in roles.iter().enumerate() {
        if found == role {
            if left == 1 {
                return Some(i);
            }
            left = left.saturating_sub(1);
        }
    }
    None
}

// Where an option stands that the program does not take.
fn untaken_at(takes: bool, role: Role, roles: &[Role]) -> Option<usize>
    ensures { result ≡ untaken takes role roles.now }
{
    if takes {
        None
    } else {
        place_of(roles, role, 1)
    }
}

// Where an option stands at the end, whose value is missing.
fn dangling_at(roles: &[Role]) -> Option<usize>
    ensures { result ≡ dangling roles.now }
{
    match roles {
        [_, .., Role::OutOption | Role::ReachOption] => Some(roles.len() - 1),
        _ => None,
    }
}

// The argument that is wrong.
fn wrong_place(roles: &[Role], t: Takes) -> Option<usize>
    requires { t.most ≤ 4 }
    ensures { result ≡ wrong_place t.out t.reach t.most roles.now }
{
    place_of(roles, Role::Unknown, 1)
        .or(untaken_at(t.out, Role::OutOption, roles))
        .or(untaken_at(t.reach, Role::ReachOption, roles))
        .or(place_of(roles, Role::Operand, t.most + 1))
        .or(place_of(roles, Role::OutOption, 2))
        .or(place_of(roles, Role::ReachOption, 2))
        .or(dangling_at(roles))
}

// Are there fewer operands than the program needs?
fn too_few(roles: &[Role], least: usize) -> bool
    ensures { result ≡ too_few least roles.now }
{
    least > 0 && place_of(roles, Role::Operand, least).is_none()
}

// What the arguments ask of a program.
pub fn asked_of(roles: &[Role], t: Takes) -> Asked
    requires { t.most ≤ 4 }
    ensures { result ≡ asked_of t.out t.reach t.least t.most roles.now }
{
    if place_of(roles, Role::HelpOption, 1).is_some() {
        return Asked::Help;
    }
    if place_of(roles, Role::VersionOption, 1).is_some() {
        return Asked::Version;
    }
    if let Some(i) = wrong_place(roles, t) {
        return Asked::Wrong(i);
    }
    if too_few(roles, t.least) {
        return Asked::Missing;
    }
    Asked::Run
}

// The text of argument i, which goes into the buffer, or why it is not there.
pub(crate) fn argument_or<'a>(rt: &HostRuntime, i: usize, buf: &'a mut [u8]) -> io::Result<&'a [u8]>
    ensures { IfOk result (λ text. length text.now ≤ length buf.old) }
{
    match rt.arg(i, buf) {
        Ok(n) => Ok(&buf[..n]),
        Err(FillError::NotPresent) => Err(missing()),
        Err(FillError::TooLong) => Err(too_long()),
    }
}

// The same, and nothing where it is missing or longer than the buffer.
pub(crate) fn argument<'a>(rt: &HostRuntime, i: usize, buf: &'a mut [u8]) -> &'a [u8]
    ensures { length result.now ≤ length buf.old }
{
    argument_or(rt, i, buf).unwrap_or(&[])
}

// How many arguments there are, the program's name among them, and no more than the most.
fn argument_count(rt: &HostRuntime, most: usize) -> usize
    ensures { result ≤ most }
{
    let mut byte = [0u8; 1];
    for n in 0..most {
        if let Err(FillError::NotPresent) = rt.arg(n, &mut byte) {
            return n;
        }
    }
    most
}

// The role of argument i, behind one of the role `before`. A text of more than 4,096 bytes is no option, and no file has such a name.
fn read_role(rt: &HostRuntime, i: usize, before: Role) -> Role {
    role_of(before, argument(rt, i, &mut buffer()))
}

// Fills in the roles of the arguments, but for the program's name, and answers how many there are. There are as many roles as there is room
// for: no program takes so many arguments, so that one among them is wrong.
pub fn read_roles(rt: &HostRuntime, roles: &mut [Role]) -> usize
    requires { 1 ≤ length roles.old }
    ensures { (1 ≤ result) × (result ≤ length roles.new) × (length roles.new ≡ length roles.old) }
{
    let count = argument_count(rt, roles.len()).max(1);
    for i in 1..count {
        roles[i] = read_role(rt, i, roles[i - 1]);
    }
    count
}

// The erasure bytes of a record of the card to convert, where the text names a conversion.
pub fn edition_of(text: &[u8]) -> Option<usize>
    ensures value { result ≡ edition_of text.now }
    ensures bound { IfSome result (λ k. (old_erasure_bytes ≤ k) × (k ≤ erasure_bytes)) }
{
    if same(text, b"to-new") {
        return Some(OLD_ERASURE_BYTES);
    }
    if same(text, b"to-old") {
        return Some(ERASURE_BYTES);
    }
    None
}

// The longest reach, where the text names one.
pub fn reach_in(text: &[u8]) -> Option<u8>
    ensures { result ≡ reach_in text.now }
{
    match text {
        b"0" => Some(0),
        b"1" => Some(1),
        b"2" => Some(2),
        _ => None,
    }
}

// The window between two times, or what is wrong with them.
pub fn window_of(first: Option<u8>, end: Option<u8>) -> Result<Window, WindowError>
    ensures value { result ≡ window_chosen first end }
    ensures window { IfOk result (λ w. is_window w ≡ true) }
{
    let first = first.ok_or(WindowError::First)?;
    let end = end.ok_or(WindowError::End)?;
    let w = Window { first, end };
    if is_window(w) {
        Ok(w)
    } else {
        Err(WindowError::Order)
    }
}

// Is the file standard input?
pub fn is_standard(place: Option<usize>, text: &[u8]) -> bool
    ensures { result ≡ is_standard place text.now }
{
    place.is_none() || same(text, b"-")
}

// Does the name stand for a device?
pub fn is_device(path: &[u8]) -> bool
    ensures { result ≡ is_device path.now }
{
    path.starts_with(b"/dev/")
}

// What the arguments ask of a program. Their roles go into the buffer.
pub fn ask(rt: &HostRuntime, roles: &mut [Role], t: Takes) -> Asked
    requires { (1 ≤ length roles.old) × (t.most ≤ 4) }
    ensures { length roles.new ≡ length roles.old }
{
    let n = read_roles(rt, roles);
    asked_of(&roles[..n], t)
}
