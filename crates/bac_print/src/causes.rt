//! What the numbers of a refusal mean, by the standard's tables (clauses 18 and 21).

ghost use Rattle.std.specs.Prelude.{◌≡◌, map, slice_index_or, []};
ghost use Rattle.bac_print.specs.Causes.{abort_reasons, error_code_text, reject_reasons};

/// The error codes from 0 to 13.
const ERROR_CODES_0: [&str; 14] = [
    "other",
    "authentication failed",
    "configuration in progress",
    "device busy",
    "dynamic creation not supported",
    "file access denied",
    "incompatible security levels",
    "inconsistent parameters",
    "inconsistent selection criterion",
    "invalid data type",
    "invalid file access method",
    "invalid file start position",
    "invalid operator name",
    "invalid parameter data type",
];

/// The error codes from 14 to 27.
const ERROR_CODES_1: [&str; 14] = [
    "invalid time stamp",
    "key generation error",
    "missing required parameter",
    "no objects of specified type",
    "no space for object",
    "no space to add list element",
    "no space to write property",
    "no VT sessions available",
    "property is not a list",
    "object deletion not permitted",
    "object identifier already exists",
    "operational problem",
    "password failure",
    "read access denied",
];

/// The error codes from 28 to 41.
const ERROR_CODES_2: [&str; 14] = [
    "security not supported",
    "service request denied",
    "timeout",
    "unknown object",
    "unknown property",
    "",
    "unknown VT class",
    "unknown VT session",
    "unsupported object type",
    "value out of range",
    "VT session already closed",
    "VT session termination failure",
    "write access denied",
    "character set not supported",
];

/// The error codes from 42 to 55.
const ERROR_CODES_3: [&str; 14] = [
    "invalid array index",
    "COV subscription failed",
    "not COV property",
    "optional functionality not supported",
    "invalid configuration data",
    "datatype not supported",
    "duplicate name",
    "duplicate object id",
    "property is not an array",
    "abort: buffer overflow",
    "abort: invalid APDU in this state",
    "abort: preempted by higher priority task",
    "abort: segmentation not supported",
    "abort: proprietary",
];

/// The error codes from 56 to 69.
const ERROR_CODES_4: [&str; 14] = [
    "abort: other",
    "invalid tag",
    "network down",
    "reject: buffer overflow",
    "reject: inconsistent parameters",
    "reject: invalid parameter data type",
    "reject: invalid tag",
    "reject: missing required parameter",
    "reject: parameter out of range",
    "reject: too many arguments",
    "reject: undefined enumeration",
    "reject: unrecognized service",
    "reject: proprietary",
    "reject: other",
];

/// The error codes from 70 to 83.
const ERROR_CODES_5: [&str; 14] = [
    "unknown device",
    "unknown route",
    "value not initialized",
    "invalid event state",
    "no alarm configured",
    "log buffer full",
    "logged value purged",
    "no property specified",
    "not configured for triggered logging",
    "unknown subscription",
    "parameter out of range",
    "list element not found",
    "busy",
    "communication disabled",
];

/// The error codes from 84 to 97.
const ERROR_CODES_6: [&str; 14] = [
    "success",
    "access denied",
    "bad destination address",
    "bad destination device id",
    "bad signature",
    "bad source address",
    "bad timestamp",
    "cannot use key",
    "cannot verify message id",
    "correct key revision",
    "destination device id required",
    "duplicate message",
    "encryption not configured",
    "encryption required",
];

/// The error codes from 98 to 111.
const ERROR_CODES_7: [&str; 14] = [
    "incorrect key",
    "invalid key data",
    "key update in progress",
    "malformed message",
    "not key server",
    "security not configured",
    "source security required",
    "too many keys",
    "unknown authentication type",
    "unknown key",
    "unknown key revision",
    "unknown source message",
    "not router to DNET",
    "router busy",
];

/// The error codes from 112 to 125.
const ERROR_CODES_8: [&str; 14] = [
    "unknown network message",
    "message too long",
    "security error",
    "addressing error",
    "write BDT failed",
    "read BDT failed",
    "register foreign device failed",
    "read FDT failed",
    "delete FDT entry failed",
    "distribute broadcast failed",
    "unknown file size",
    "abort: APDU too long",
    "abort: application exceeded reply time",
    "abort: out of resources",
];

/// The error codes from 126 to 138.
const ERROR_CODES_9: [&str; 13] = [
    "abort: TSM timeout",
    "abort: window size out of range",
    "file full",
    "inconsistent configuration",
    "inconsistent object type",
    "internal error",
    "not configured",
    "out of memory",
    "value too long",
    "abort: insufficient security",
    "abort: security error",
    "duplicate entry",
    "invalid value in this state",
];

/// The reject reasons, from 0 on.
const REJECT_REASONS: [&str; 10] = [
    "other",
    "buffer overflow",
    "inconsistent parameters",
    "invalid parameter data type",
    "invalid tag",
    "missing required parameter",
    "parameter out of range",
    "too many arguments",
    "undefined enumeration",
    "unrecognized service",
];

/// The abort reasons, from 0 on.
const ABORT_REASONS: [&str; 12] = [
    "other",
    "buffer overflow",
    "invalid APDU in this state",
    "preempted by higher priority task",
    "segmentation not supported",
    "security error",
    "insufficient security",
    "window size out of range",
    "application exceeded reply time",
    "out of resources",
    "TSM timeout",
    "APDU too long",
];

/// The name at a place of a table, and nothing behind its last.
fn name_at(names: &[&'static str], place: u32) -> &'static str
    ensures { result.now ≡ slice_index_or (map (λ name. name.now) names.now) place [] }
{
    match names.get(place as usize) {
        Some(name) => name,
        None => "",
    }
}

/// What an error code means (clause 21, Error); nothing for 33 and behind the last that the
/// standard names.
pub fn error_code_name(code: u32) -> &'static str
    ensures { result.now ≡ error_code_text code }
{
    if code < 14 {
        return name_at(&ERROR_CODES_0, code);
    }
    if code < 28 {
        return name_at(&ERROR_CODES_1, code - 14);
    }
    if code < 42 {
        return name_at(&ERROR_CODES_2, code - 28);
    }
    if code < 56 {
        return name_at(&ERROR_CODES_3, code - 42);
    }
    if code < 70 {
        return name_at(&ERROR_CODES_4, code - 56);
    }
    if code < 84 {
        return name_at(&ERROR_CODES_5, code - 70);
    }
    if code < 98 {
        return name_at(&ERROR_CODES_6, code - 84);
    }
    if code < 112 {
        return name_at(&ERROR_CODES_7, code - 98);
    }
    if code < 126 {
        return name_at(&ERROR_CODES_8, code - 112);
    }
    name_at(&ERROR_CODES_9, code - 126)
}

/// What a reject reason means (clause 18.9).
pub fn reject_reason_name(reason: u8) -> &'static str
    ensures { result.now ≡ slice_index_or reject_reasons reason [] }
{
    name_at(&REJECT_REASONS, u32::from(reason))
}

/// What an abort reason means (clause 18.10).
pub fn abort_reason_name(reason: u8) -> &'static str
    ensures { result.now ≡ slice_index_or abort_reasons reason [] }
{
    name_at(&ABORT_REASONS, u32::from(reason))
}
