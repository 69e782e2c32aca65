// The endpoint of a body, behind a channel and another byte: a connect response and a disconnect request have one.
// Its two callers ask for their lengths first, which differ; no type says both.
ghost use Rattle.std.specs.Prelude.{◌≤◌, length};
ghost use Rattle.connect.specs.Endpoint.{StandsPromise, ReadPromise};

use hpai::Hpai;
use wire::Fault;

// Its checks. A refusal is told where the endpoint stands in the body: a length byte of 7 is refused at 2.
pub(crate) fn stands(body: &[u8]) -> Result<(), Fault>
    requires { 10 ≤ length body.now }
    ensures { StandsPromise body.now result }
{
    match Hpai::parse(&body[2..10]) {
        Ok(_) => Ok(()),
        Err(fault) => Err(Fault {
            why: fault.why,
            at: 2 + fault.at,
        }),
    }
}

// Its fields, which the checks let pass. The parse has them too, but in a Result they lie across the place of a refusal: they would be written by bytes and read by eight, for which the processor waits.
pub(crate) fn read(body: &[u8]) -> Hpai
    requires { 10 ≤ length body.now }
    ensures { ReadPromise body.now result }
{
    let ip_address = [body[4], body[5], body[6], body[7]];
    Hpai {
        structure_length: body[2],
        host_protocol: body[3],
        ip_address,
        port: wire::word_at(body, 8),
    }
}
