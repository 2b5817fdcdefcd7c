//! The errors that a session answers even where there is no memory.
ghost use Rattle.std.specs.Prelude.{◌≡◌, None};
ghost use Rattle.ph_errors.specs.Body.{body_of};
ghost use Rattle.ph_errors.specs.Table.{error_of};

/// The errors whose replies take no memory: their bodies are fixed bytes.
#[derive(Clone, Copy, Debug, PartialEq, Eq)]
pub enum Fixed {
    AcquirerPending,
    AcquirerFailed,
    NoMemory,
    HistoryFull,
    /// A closing reply with status 400: the request's head is none.
    Malformed,
    /// A closing reply with status 413.
    BodyTooLarge,
    /// A closing reply with status 431.
    HeadTooLarge,
    /// A closing reply with status 501.
    NotImplemented,
    /// A closing reply with status 505.
    VersionNotSupported,
}

impl Fixed {
    ghost use Rattle.ph_errors.specs.Fixed.{problem_of, closing_of};

    /// The closing reply with this status: 400, 413, 431, 501 or 505, and none else.
    pub fn closing(status: u16) -> Option<Fixed>
        ensures { result ≡ closing_of status }
    {
        match status {
            400 => Some(Fixed::Malformed),
            413 => Some(Fixed::BodyTooLarge),
            431 => Some(Fixed::HeadTooLarge),
            501 => Some(Fixed::NotImplemented),
            505 => Some(Fixed::VersionNotSupported),
            _ => None,
        }
    }

    /// The HTTP status of the reply.
    #[tactic(auto, unfolding(crate::specs::Table::error_of))]
    pub fn status(self) -> u16
        ensures { result ≡ (error_of (problem_of self)).status }
    {
        match self {
            Fixed::AcquirerPending | Fixed::AcquirerFailed => 500,
            Fixed::NoMemory | Fixed::HistoryFull => 503,
            Fixed::Malformed => 400,
            Fixed::BodyTooLarge => 413,
            Fixed::HeadTooLarge => 431,
            Fixed::NotImplemented => 501,
            Fixed::VersionNotSupported => 505,
        }
    }

    /// Whether the reply says that the same request may be sent again.
    #[tactic(auto, unfolding(crate::specs::Table::error_of))]
    pub fn retry(self) -> bool
        ensures { result ≡ (error_of (problem_of self)).retry }
    {
        matches!(self, Fixed::AcquirerPending | Fixed::AcquirerFailed)
    }

    /// The body of the reply.
    pub fn body(self) -> &'static str
        ensures { result.now ≡ body_of (error_of (problem_of self)) None }
    {
        match self {
            Fixed::AcquirerPending =>
                "{\"error\":{\"code\":\"acquirer_pending\",\"message\":\"The acquirer has not answered yet.\",\"type\":\"api_error\"}}",
            Fixed::AcquirerFailed =>
                "{\"error\":{\"code\":\"acquirer_failed\",\"message\":\"The acquirer could not be reached.\",\"type\":\"api_error\"}}",
            Fixed::NoMemory =>
                "{\"error\":{\"code\":\"no_memory\",\"message\":\"Out of memory.\",\"type\":\"api_error\"}}",
            Fixed::HistoryFull =>
                "{\"error\":{\"code\":\"history_full\",\"message\":\"The history is full.\",\"type\":\"api_error\"}}",
            Fixed::Malformed =>
                "{\"error\":{\"message\":\"Malformed request.\",\"type\":\"invalid_request_error\"}}",
            Fixed::BodyTooLarge =>
                "{\"error\":{\"message\":\"Body too large.\",\"type\":\"invalid_request_error\"}}",
            Fixed::HeadTooLarge =>
                "{\"error\":{\"message\":\"Head too large.\",\"type\":\"invalid_request_error\"}}",
            Fixed::NotImplemented =>
                "{\"error\":{\"message\":\"Not implemented.\",\"type\":\"invalid_request_error\"}}",
            Fixed::VersionNotSupported =>
                "{\"error\":{\"message\":\"HTTP version not supported.\",\"type\":\"invalid_request_error\"}}",
        }
    }
}
