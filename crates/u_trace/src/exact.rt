//! Keys of tokens tie with nothing but themselves.
ghost use Rattle.u_trace.specs.TokenKeys.{token_key_ties};

use crate::token_key::TokenKey;
use u_base::ExactOrd;

impl ExactOrd for TokenKey {
    ghost exact = { token_key_ties };
}
