//! The reason phrases of responses.

/// The reason phrase of a status that alarmd answers (RFC 9110, section 15).
pub fn phrase_of(status: &str) -> Option<&'static str> {
    match status {
        "200" => Some("OK"),
        "201" => Some("Created"),
        "204" => Some("No Content"),
        "400" => Some("Bad Request"),
        "404" => Some("Not Found"),
        "405" => Some("Method Not Allowed"),
        "406" => Some("Not Acceptable"),
        "409" => Some("Conflict"),
        "413" => Some("Payload Too Large"),
        "415" => Some("Unsupported Media Type"),
        "500" => Some("Internal Server Error"),
        "501" => Some("Not Implemented"),
        "503" => Some("Service Unavailable"),
        _ => None,
    }
}
