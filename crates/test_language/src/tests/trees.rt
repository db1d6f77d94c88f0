//! Programs, each with its tree: a program with parentheses around each statement, declaration and operation. Texts are numbers
//! in `< >`. `|` is before statements that were moved into a block, and `!` after a block that leaves.

use crate::tests::written::written;
use script_syntax::parse;
use std::alloc::Global;
use std::test::Fail;
use support_data::statements;

/// Each program comes after a `$`, and its tree after a line `---`. What is right after a `$` describes the programs from there on.
static TREES: &str = r#"$ assignments that have an operator or two, and how they are grouped
x = a - b - c
---
{(x = ((a - b) - c))}
$
x = a - (b - c)
---
{(x = (a - (b - c)))}
$
x = a + b * c
---
{(x = (a + (b * c)))}
$
x = a * b + c
---
{(x = ((a * b) + c))}
$
x = (a + b) * c
---
{(x = ((a + b) * c))}
$
x = a / b * c % d
---
{(x = (((a / b) * c) % d))}
$
x = a || b && c
---
{(x = (a || (b && c)))}
$
x = a && b || c
---
{(x = ((a && b) || c))}
$
x = a == b && c != d
---
{(x = ((a == b) && (c != d)))}
$
x = a + 1 < b * 2
---
{(x = ((a + 1) < (b * 2)))}
$
x = a <= b || a >= c
---
{(x = ((a <= b) || (a >= c)))}
$
x = (a > b) == (c < d)
---
{(x = ((a > b) == (c < d)))}
$
x = -a * b
---
{(x = ((-a) * b))}
$
x = a - -b
---
{(x = (a - (-b)))}
$
x = !!a == b
---
{(x = ((!(!a)) == b))}
$
x = -a ?? 1
---
{(x = (-(a ?? 1)))}
$
x = counts[b] ?? 0 > 3
---
{(x = ((counts[b] ?? 0) > 3))}
$
x = a ?? -b ?? c
---
{(x = (a ?? (-(b ?? c))))}
$
x = a # b
 + c
---
{(x = (a + c))}
$
x = a // b
- c
---
{(x = (a - c))}
$ assignments of numbers, texts, places and calls
x = 1_000
---
{(x = 1000)}
$
x = 0xff_f
---
{(x = 4095)}
$
x = 0x_aB
---
{(x = 171)}
$
x = 18_446_744_073_709_551_615
---
{(x = 18446744073709551615)}
$
x = true
---
{(x = 1)}
$
x = false
---
{(x = 0)}
$
x = 'a'
---
{(x = 97)}
$
x = '\x41'
---
{(x = 65)}
$
x = '\n'
---
{(x = 10)}
$
x = '\''
---
{(x = 39)}
$
x = '"'
---
{(x = 34)}
$
t = ""
---
{(t = <>)}
$
t = "a\x0F\t\r\0\\\"é'"
---
{(t = <97 15 9 13 0 92 34 195 169 39>)}
$
x = a.b.c[i + 1].d
---
{(x = a.b.c[(i + 1)].d)}
$
x = a[b[c]][d]
---
{(x = a[b[c]][d])}
$
x = m.after(k - 1)
---
{(x = m.after((k - 1)))}
$
x = m.first ?? -1
---
{(x = (m.first ?? (-1)))}
$
x = f()
---
{(x = f())}
$
x = f(1, g(2), a[3])
---
{(x = f(1, g(2), a[3]))}
$
x = 'a' t = "b"
---
{(x = 97) (t = <98>)}
$ statements

---
{}
$
let n = 3; let p = a.b
---
{(let n = 3) (let p = a.b)}
$
let k = m.after(1)
print
---
{(let k = m.after(1)) (print)}
$
if a { print }
---
{(if a {(print)})}
$
if a { x = 1 } else { x = 2 }
---
{(if a {(x = 1)} else {(x = 2)})}
$
if a { x = 1 } else if b { x = 2 } else if c { x = 3 } else { x = 4 }
---
{(if a {(x = 1)} else {(if b {(x = 2)} else {(if c {(x = 3)} else {(x = 4)})})})}
$
if let x = a[1] { } else why { }
---
{(if let x = a[1] {} else why {})}
$
if let x = new S { } else if b { }
---
{(if let x = new S {} else {(if b {})})}
$
if let x = take a.b { }
---
{(if let x = take a.b {})}
$
for b in input { }
---
{(for b in input {})}
$
for b in input max 10 { } else { stop }
---
{(for b in input max 10 {} else {(stop)}!)}
$
for i in 0..n + 1 max 5 { continue }
---
{(for i in 0..(n + 1) max 5 {(continue)}!)}
$
for v in l max 9 { write v }
---
{(for v in l max 9 {(write v)})}
$
for k, v in m.a max 5 { }
---
{(for k, v in m.a max 5 {})}
$
while a < 3 max 9 { break } else { print }
---
{(while (a < 3) max 9 {(break)}! else {(print)})}
$
print; write 1, "a"
---
{(print) (write 1, <97>)}
$
print a:4, b:2 + 1 max 3
---
{(print a:4, b:(2 + 1) max 3)}
$
print
x = 1
---
{(print) (x = 1)}
$
x += 1 y -= 2 z *= 3
---
{(x += 1) (y -= 2) (z *= 3)}
$
x /= 4 x %= 5
---
{(x /= 4) (x %= 5)}
$
t = "a", 2, u max 9 else why { stop }
---
{(t = <97>, 2, u max 9 else why {(stop)}!)}
$
m[1].a = 2 else { }
---
{(m[1].a = 2 else {})}
$
l.push(3) else { print }
---
{(l.push(3) else {(print)})}
$
l[0].pop() f(1, 2)
---
{(l[0].pop()) (f(1, 2))}
$
delete a[1] clear b shrink c
---
{(delete a[1]) (clear b) (shrink c)}
$
freeze a.b = c else { }
---
{(freeze a.b = c else {})}
$
share a = b.c else why { }
---
{(share a = b.c else why {})}
$
use a.b as n, c { print } else { stop }
---
{(use a.b as n, c {(print)} else {(stop)}!)}
$
stop
---
{(stop)}!
$
print -1
-2
---
{(print ((-1) - 2))}
$ statements that are moved into a block
if x { stop }
print
---
{(if x {(stop)}! else { | (print)})}
$
if x { stop } else { y = 1 }
print
---
{(if x {(stop)}! else {(y = 1) | (print)})}
$
if x { y = 1 } else { stop }
print
write 1
---
{(if x {(y = 1) | (print) (write 1)} else {(stop)}!)}
$
if let x = a[1] { } else { stop }
print
---
{(if let x = a[1] { | (print)} else {(stop)}!)}
$
if a { stop }
if b { stop }
print
---
{(if a {(stop)}! else { | (if b {(stop)}! else { | (print)})})}
$
if a { stop }
stop
---
{(if a {(stop)}! else { | (stop)}!)}!
$
for i in 0..3 { if a { continue } print i }
print
---
{(for i in 0..3 {(if a {(continue)}! else { | (print i)})}) (print)}
$
let x = a[1] else why { stop }
print x
---
{(let x = a[1] { | (print x)} else why {(stop)}!)}
$
let x = a[1] else { stop }
stop
---
{(let x = a[1] { | (stop)}! else {(stop)}!)}!
$
let x = new list<map<int>>
x[0][1] = 1
---
{(let x = new list<map<int>> { | (x[0][1] = 1)})}
$
let t = take a.b else { }
---
{(let t = take a.b {} else {})}
$
let x = m.pop()
print
---
{(let x = m.pop() { | (print)})}
$
use a as b, c
print
---
{(use a as b, c { | (print)})}
$
use a { stop }
print
---
{(use a {(stop)}!) (print)}
$
if a { if b { stop } print }
print
---
{(if a {(if b {(stop)}! else { | (print)})}) (print)}
$ declarations of each kind
const A = 1 + 2
---
(const A = (1 + 2)) {}
$
struct S { a: int, b: text c: own<S> }
---
(struct S a: int, b: text, c: own<S>) {}
$
object x: flat_map<vec<shared<T>>>
---
(object x: flat_map<vec<shared<T>>>) {}
$
object grid[2 * 5]: int as "g-1"
---
(object grid[(2 * 5)]: int as <103 45 49>) {}
$
family user: User as "u" family b: map<list<text>>
---
(family user: User as <117>) (family b: map<list<text>>) {}
$
unique o: P
---
(unique o: P) {}
$
fn f(a, b: list<int>) -> int { return a + 1 }
---
(fn f(a: int, b: list<int>) -> int {(return (a + 1))}!) {}
$
fn f() { return }
f()
---
(fn f() {(return)}!) {(f())}
$
fn f() { if a { return }
print }
---
(fn f() {(if a {(return)}! else { | (print)})}) {}
$
fail { print; stop }
---
(fail {(print) (stop)}!) {}
$
x = 1
const A = 2
---
(const A = 2) {(x = 1)}
"#;

#[test]
fn each_tree(rt: HostRuntime) -> Result<(), Fail> {
    has_trees(rt.alloc())
}

fn has_trees(alloc: Global) -> Result<(), Fail> {
    for case in statements(alloc, TREES)? {
        let (program, tree) = case.lines.split_once("\n---\n").ok_or("no tree")?;
        has_tree(alloc, program, tree.trim_end())?;
    }
    Ok(())
}

fn has_tree(alloc: Global, program: &str, wanted: &str) -> Result<(), Fail> {
    let tree = parse(alloc, program.as_bytes()).ok().ok_or("errors")?;
    let found = written(alloc, &tree)?;
    if found.as_str() == wanted {
        return Ok(());
    }
    Err(Fail::new(format_args!("{program}\nis\n{found}")))
}
