//! Cases of `amqp_uri`.
use crate::case::Case;
use amqp_uri::AmqpUri;
use anyhow::Result;

/// Does the case.
pub fn run(rt: &(impl Print + AllocGlobal), case: &Case<'_>) -> Result<()> {
    match AmqpUri::read(rt.alloc(), case.word(0)?) {
        Ok(uri) => println!(rt;
            "{}: user {:?} password {:?} host {:?} port {} virtual host {:?}",
            case.name, uri.user, uri.pass, uri.host, uri.port, uri.vhost
        )?,
        Err(fault) => println!(rt; "{}: {fault:?}", case.name)?,
    }
    Ok(())
}
