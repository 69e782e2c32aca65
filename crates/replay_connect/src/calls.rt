// The calls by their numbers, 9 to 21 and 73 to 75. Argument bytes that are missing count as 0; another call gets a line that no call has.
use crate::{connect_calls, hpai_calls};
use replay::{Calls, Told};

#[derive(Drop)]
pub(crate) struct ConnectCalls;

impl Calls for ConnectCalls {
    fn answer(&mut self, call: u8, args: &[u8], buf: &mut [u8]) -> Told {
        // A record names its call by a number.
        match call {
            9 => hpai_calls::new(args),
            10 => hpai_calls::parse(args),
            11 => hpai_calls::encode(args, buf),
            12 => connect_calls::cri_tunnel(),
            13 => connect_calls::cri_encode(args, buf),
            14 => connect_calls::cri_decode(args),
            15 => connect_calls::connect_new(args, buf),
            16 => connect_calls::connect_build(args, buf),
            17 => connect_calls::connect_response(args),
            18 => connect_calls::state_build(args, buf),
            19 => connect_calls::state_parse(args),
            20 => connect_calls::disconnect_build(args, buf),
            21 => connect_calls::disconnect_parse(args),
            73 => connect_calls::standard_response(args),
            74 => connect_calls::disconnect_request_parse(args),
            75 => connect_calls::disconnect_response_build(args, buf),
            _ => replay::few(0, [0; 4]),
        }
    }
}
