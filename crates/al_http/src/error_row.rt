//! The refusals of alarmd, by their numbers.

ghost use Rattle.std.specs.Prelude.{◌≡◌, ◌+◌, ◌≤◌, length};
ghost use Rattle.al_http.specs.ErrorRows.{IsErrorRow, error_row as row_of, transport as transport_row, protocol as protocol_row, application as application_row};
ghost use Rattle.al_http.specs.Phrases.{HasPhrase};
ghost use Rattle.al_http.specs.Told.{told};

/// What a refusal tells: its status, and the parts of its body (RFC 8040, section 7.1).
#[derive(Clone, Copy)]
pub struct ErrorRow {
    pub status: u16,
    pub error_type: &'static str,
    pub tag: &'static str,
    pub message: &'static str,
}

fn transport(status: u16, tag: &'static str, message: &'static str) -> ErrorRow
    ensures { told result ≡ transport_row status tag.now message.now }
{
    ErrorRow {
        status,
        error_type: "transport",
        tag,
        message,
    }
}

fn protocol(status: u16, tag: &'static str, message: &'static str) -> ErrorRow
    ensures { told result ≡ protocol_row status tag.now message.now }
{
    ErrorRow {
        status,
        error_type: "protocol",
        tag,
        message,
    }
}

fn application(status: u16, tag: &'static str, message: &'static str) -> ErrorRow
    ensures { told result ≡ application_row status tag.now message.now }
{
    ErrorRow {
        status,
        error_type: "application",
        tag,
        message,
    }
}

#[tactic(auto, unfolding(crate::specs::ErrorRows::error_rows))]
fn row_at(number: u8) -> ErrorRow
    requires { IsErrorRow number }
    ensures { told result ≡ row_of number }
{
    match number {
        1 => transport(400, "malformed-message", "bad head"),
        2 => transport(413, "too-big", "head too big"),
        3 => transport(413, "too-big", "body too big"),
        4 => transport(501, "operation-not-supported", "transfer coding"),
        5 => protocol(404, "invalid-value", "no such path"),
        6 => protocol(400, "invalid-value", "bad escape"),
        7 => protocol(400, "invalid-value", "bad keys"),
        8 => protocol(400, "invalid-value", "bad query"),
        9 => protocol(405, "operation-not-supported", "method not allowed"),
        10 => protocol(400, "malformed-message", "not JSON"),
        11 => protocol(400, "missing-attribute", "missing operator"),
        12 => protocol(400, "invalid-value", "bad operator"),
        13 => protocol(400, "unknown-element", "unknown member"),
        14 => protocol(400, "missing-attribute", "missing member"),
        15 => protocol(400, "invalid-value", "bad value"),
        16 => application(404, "invalid-value", "no such alarm"),
        17 => application(404, "invalid-value", "no such shelf"),
        18 => application(404, "invalid-value", "no such point"),
        19 => application(404, "invalid-value", "not set"),
        20 => application(409, "data-exists", "shelf exists"),
        21 => application(409, "data-exists", "inventory installed"),
        22 => application(400, "invalid-value", "not in the inventory"),
        23 => application(400, "invalid-value", "severity not in the inventory"),
        24 => application(409, "resource-denied", "alarms full"),
        25 => application(409, "resource-denied", "shelves full"),
        26 => application(409, "resource-denied", "clock at its end"),
        27 => application(409, "resource-denied", "journal full"),
        28 => application(500, "operation-failed", "disk fault"),
        _ => application(400, "too-big", "response too big"),
    }
}

/// The refusal of a number from 1 to 29.
pub fn error_row(number: u8) -> ErrorRow
    requires { IsErrorRow number }
    ensures row { told result ≡ row_of number }
    ensures phrase { HasPhrase result.status }
    ensures short { length result.message.now + length result.tag.now + length result.error_type.now
        ≤ 64 }
{
    row_at(number)
}
