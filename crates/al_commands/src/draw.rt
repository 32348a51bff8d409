//! The numbers of a drill, and the requests that they make.

ghost use Rattle.std.specs.Prelude.{◌≡◌, ◌<◌, ◌≤◌, ◌%◌, ℕ, IfOk, string_bytes};
ghost use Rattle.al_commands.specs.Draws.{acknowledge_text, drawn, drop_shelf_text, install_text, next_number, put_shelf_text, report_text, text_by, with_body};

use std::alloc::{AllocError, Global};

/// Draws numbers, each from the one before.
#[derive(Debug, Drop)]
pub struct Draws {
    pub number: u64,
    ghost within: { number < 2147483648 },
}

impl Draws {
    /// The next number's upper half.
    pub fn draw(&mut self) -> u64
        ensures drawn { result ≡ drawn self.old.number }
        ensures next { self.new.number ≡ next_number self.old.number }
    {
        self.number = (self.number * 1_103_515_245 + 12_345) % 2_147_483_648;
        self.number / 65_536
    }

    /// The next request, by three draws.
    pub fn request(&mut self, alloc: Global) -> Result<String, AllocError>
        ensures text { IfOk result (λ text.
            string_bytes text ≡ text_by (drawn self.old.number)
            (drawn (next_number self.old.number))
            (drawn (next_number (next_number self.old.number)))) }
        ensures next { self.new.number ≡ next_number (next_number (next_number self.old.number)) }
    {
        let a = self.draw();
        let b = self.draw();
        let c = self.draw();
        text_by(alloc, a, b, c)
    }
}

/// The request that installs an inventory of one type of alarms.
pub fn install() -> &'static [u8]
    ensures { result.now ≡ install_text }
{
    b"PUT /restconf/data/alarmd:inventory HTTP/1.1\r\nContent-Length: 224\r\n\r\n{\"alarmd:inventory\":{\"alarm-type\":[{\"alarm-type-id\":\"ex:link\",\"description\":\"Link\",\"ietf-alarms-x733:event-type\":\"communications-alarm\",\"will-clear\":true}],\"identity\":[{\"base\":\"ietf-alarms:alarm-type-id\",\"name\":\"ex:link\"}]}}"
}

/// The request of three draws.
#[tactic(auto, unfolding(crate::specs::Draws::text_by))]
fn text_by(alloc: Global, a: u64, b: u64, c: u64) -> Result<String, AllocError>
    ensures { IfOk result (λ text. string_bytes text ≡ text_by a b c) }
{
    match b % 10 {
        0 => report(alloc, a, c, "indeterminate"),
        1 => report(alloc, a, c, "warning"),
        2 => report(alloc, a, c, "minor"),
        3 => report(alloc, a, c, "major"),
        4 => report(alloc, a, c, "critical"),
        5 | 6 => report(alloc, a, c, "cleared"),
        7 => acknowledge(alloc, a),
        8 => put_shelf(alloc, a, c),
        _ => drop_shelf(alloc, a),
    }
}

/// A request with a body, whose line and further fields are its head.
fn with_body(alloc: Global, head: &str, body: &str) -> Result<String, AllocError>
    ensures { IfOk result (λ text. string_bytes text ≡ with_body head.now body.now) }
{
    let len = body.len();
    format!(in alloc; "{head}Content-Length: {len}\r\n\r\n{body}")
}

/// The report that a port has this status.
fn report(alloc: Global, a: u64, c: u64, status: &str) -> Result<String, AllocError>
    ensures { IfOk result (λ text. string_bytes text ≡ report_text a c status.now) }
{
    let port = a % 200;
    let text = c % 3;
    let body = format!(in alloc;
        "{{\"alarmd:input\":{{\"alarm-text\":\"t{text}\",\"alarm-type-id\":\"ex:link\",\"perceived-severity\":\"{status}\",\"resource\":\"port{port}\"}}}}"
    )?;
    with_body(
        alloc,
        "POST /restconf/operations/alarmd:report HTTP/1.1\r\n",
        body.as_str(),
    )
}

/// The acknowledgement of a port's alarm.
fn acknowledge(alloc: Global, a: u64) -> Result<String, AllocError>
    ensures { IfOk result (λ text. string_bytes text ≡ acknowledge_text a) }
{
    let port = a % 200;
    let head = format!(in alloc;
        "POST /restconf/data/ietf-alarms:alarms/alarm-list/alarm=port{port},ex:link,/set-operator-state HTTP/1.1\r\nAlarm-Operator: drill\r\n"
    )?;
    with_body(
        alloc,
        head.as_str(),
        "{\"ietf-alarms:input\":{\"state\":\"ack\"}}",
    )
}

/// A shelf for the ports whose numbers begin so.
fn put_shelf(alloc: Global, a: u64, c: u64) -> Result<String, AllocError>
    ensures { IfOk result (λ text. string_bytes text ≡ put_shelf_text a c) }
{
    let shelf = a % 4;
    let digit = c % 10;
    let head = format!(in alloc;
        "PUT /restconf/data/ietf-alarms:alarms/control/alarm-shelving/shelf=s{shelf} HTTP/1.1\r\n"
    )?;
    let body = format!(in alloc;
        "{{\"ietf-alarms:shelf\":[{{\"name\":\"s{shelf}\",\"resource\":[\"port{digit}[0-9]*\"]}}]}}"
    )?;
    with_body(alloc, head.as_str(), body.as_str())
}

fn drop_shelf(alloc: Global, a: u64) -> Result<String, AllocError>
    ensures { IfOk result (λ text. string_bytes text ≡ drop_shelf_text a) }
{
    let shelf = a % 4;
    format!(in alloc;
        "DELETE /restconf/data/ietf-alarms:alarms/control/alarm-shelving/shelf=s{shelf} HTTP/1.1\r\n\r\n"
    )
}
